//! The forms in which `itv verify` writes its output.

use it_base::text::Text;
use it_json_report::form::ReportForm;

/// Who verifies, and what is verified, as a verification summary names them (SLSA v1.0,
/// verification summary).
#[derive(Drop)]
pub struct SummaryNames {
    /// The id of the verifier.
    pub verifier: Text,
    /// The URI of the resource.
    pub resource: Text,
}

/// How the output of `itv verify` is written.
#[derive(Drop)]
pub enum OutputForm {
    /// The report alone; the notes follow elsewhere.
    Report(ReportForm),
    /// The report as JSON, with what is found and noted and what stands behind it.
    Full,
    /// The body of a verification summary in place of a report that accepts; a report that refuses
    /// goes where the notes go, before them.
    Summary(SummaryNames),
}

impl OutputForm {
    /// Whether the notes follow elsewhere.
    pub(crate) fn is_noted(&self) -> bool {
        !matches!(self, OutputForm::Full)
    }
}
