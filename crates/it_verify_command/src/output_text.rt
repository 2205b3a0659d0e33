//! The output on a verdict.
ghost use Rattle.std.specs.Prelude.{IfOk};
ghost use Rattle.it_verify.specs.Verdict.{OnAccepted};
ghost use Rattle.it_verify_command.specs.FullOutput.{IsTextIn};
ghost use Rattle.it_verify_command.specs.inside.Answer.{IsBehindIn};
ghost use Rattle.it_notes.specs.Known.{IsTold};

use crate::full_output::full_text;
use crate::output_form::OutputForm;
use crate::summary_text::summary_text;
use crate::verification::Verification;
use it_dsse::checks::Checks;
use it_json_report::evidence::Evidence;
use it_json_report::form::report_in;
use it_notes::known::Told;
use std::alloc::{AllocError, Global};

/// The output on what was told, with what stands behind it.
pub(crate) fn text_in<C: Checks>(
    alloc: Global,
    asked: &Verification<C>,
    told: &Told,
    behind: Option<Evidence>,
) -> Result<Vec<u8>, AllocError>
    requires told { IsTold (C.panel asked.now.checks.now) asked.now.inputs.now told.now }
    requires behind { OnAccepted told.now.verdict (IsBehindIn asked.now.form.now
        (C.panel asked.now.checks.now) asked.now.vouched.now asked.now.inputs.now behind) }
    ensures { IfOk result (λ text. IsTextIn asked.now.form.now (C.panel asked.now.checks.now)
        asked.now.vouched.now asked.now.inputs.now told.now.verdict text.items) }
{
    match asked.form {
        OutputForm::Report(form) => report_in(alloc, *form, &told.verdict),
        OutputForm::Full => full_text(alloc, asked, told, behind),
        OutputForm::Summary(names) => summary_text(alloc, &told.verdict, &behind, names),
    }
}
