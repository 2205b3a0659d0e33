//! Laws about a whole verification and what it costs: functions that do nothing and whose contracts
//! hold for all inputs and every panel of checks. The laws of the report are public here too.
ghost use Rattle.it_verify.specs.CostLaws.{InputsHaveCost, InputsHaveOneCost};
ghost use Rattle.it_verify.specs.VerificationLaws.{
  AlikeInputs,
  AlikePanels,
  MadeNotRefused,
  MadeOrFirst,
  MadeOrRefused,
  RefusalIsOne,
  VerdictIsOne,
  WithheldInputs,
};

pub use it_report::laws::{first_lines_tell, forms_are_words, forms_tell, report_tells};

/// What was made as the owners prescribed is never refused.
pub fn made_not_refused()
    ensures { MadeNotRefused }
{}

/// What is delivered was made as the owners prescribed, or is refused: with `made_not_refused`,
/// exactly one of the two.
pub fn made_or_refused()
    ensures { MadeOrRefused }
{}

/// What is delivered was made as the owners prescribed exactly where no stage of a verification
/// fails.
pub fn made_or_first()
    ensures { MadeOrFirst }
{}

/// What is delivered is refused in at most one way.
pub fn refusal_is_one()
    ensures { RefusalIsOne }
{}

/// What was made as the owners prescribed is accepted with only one list of steps and one of files.
pub fn verdict_is_one()
    ensures { VerdictIsOne }
{}

/// Inputs in which the same things count have the same verdict and the same report.
pub fn alike_inputs()
    ensures { AlikeInputs }
{}

/// Inputs have the same verdict and the same report with panels of checks that are alike on the
/// keys of the owners and builders and, where every owner signed the layout, on its keys and those
/// of the sublayouts that count, whatever numbers the panels give the keys.
pub fn alike_panels()
    ensures { AlikePanels }
{}

/// Inputs in which less counts than in inputs that were made as the owners prescribed are accepted
/// with the same steps and files, no step having more keys, or are refused for too few keys or
/// missing provenance.
pub fn withheld_inputs()
    ensures { WithheldInputs }
{}

/// There is a number of checks that a verification of inputs costs: with `inputs_have_one_cost`,
/// exactly one.
pub fn inputs_have_cost()
    ensures { InputsHaveCost }
{}

/// The number of checks that a verification of inputs costs is unique.
pub fn inputs_have_one_cost()
    ensures { InputsHaveOneCost }
{}
