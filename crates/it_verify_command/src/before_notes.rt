//! What goes before the notes, where they follow the output elsewhere.
ghost use Rattle.std.specs.Prelude.{◌≡◌, IfOk};
ghost use Rattle.it_verify_command.specs.inside.Answer.{before_notes, refusal_text};

use crate::output_form::OutputForm;
use it_report::refused_report;
use it_report::verdict::Verdict;
use std::alloc::{AllocError, Global};

/// What goes before the notes in this form: the report in lines of a verdict that refuses, where a
/// summary is asked for, and otherwise nothing.
pub(crate) fn text_before_notes(
    alloc: Global,
    verdict: &Verdict,
    form: &OutputForm,
) -> Result<Vec<u8>, AllocError>
    ensures { IfOk result (λ text. text.items ≡ before_notes form.now verdict.now) }
{
    match form {
        OutputForm::Report(_) | OutputForm::Full => Ok(Vec::new(alloc)),
        OutputForm::Summary(_) => refusal_text(alloc, verdict),
    }
}

/// The report in lines of a verdict that refuses, and nothing of one that accepts.
fn refusal_text(alloc: Global, verdict: &Verdict) -> Result<Vec<u8>, AllocError>
    ensures { IfOk result (λ text. text.items ≡ refusal_text verdict.now) }
{
    match verdict {
        Verdict::Accepted { .. } => Ok(Vec::new(alloc)),
        Verdict::Refused(refusal) => refused_report(alloc, refusal),
    }
}
