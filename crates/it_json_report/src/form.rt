//! The forms of a report.
ghost use Rattle.std.specs.Prelude.{◌≡◌, IfOk};
ghost use Rattle.it_json_report.specs.Form.{form_of};

use crate::reporting::json_report;
use it_report::report;
use it_report::verdict::Verdict;
use std::alloc::{AllocError, Global};

/// How a report is written.
#[derive(Clone, Copy, Debug, PartialEq, Eq)]
pub enum ReportForm {
    /// Line by line, for people and for scripts: `report` of `it_report`.
    Lines,
    /// One JSON object on one line: `json_report`.
    Json,
}

/// The report of a verdict in this form, with a line feed at its end.
///
/// # Errors
///
/// `AllocError` where memory was refused.
pub fn report_in(alloc: Global, form: ReportForm, verdict: &Verdict) -> Result<Vec<u8>, AllocError>
    ensures { IfOk result (λ bytes. bytes.items ≡ form_of form verdict.now) }
{
    match form {
        ReportForm::Lines => report(alloc, verdict),
        ReportForm::Json => json_report(alloc, verdict),
    }
}
