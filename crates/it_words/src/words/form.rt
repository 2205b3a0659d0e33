//! The forms in which `itv verify` may be asked for its output.

use it_base::text::Text;

/// The form of the report that is asked for.
#[derive(Clone, Copy, Debug, PartialEq, Eq)]
pub enum Form {
    /// The report in lines, where no form is given.
    Lines,
    /// The report as one JSON object: `--json`, or `--json=1`.
    Json,
    /// The report as one JSON object that also has what is found and noted: `--json=2`.
    Full,
}

/// Who verifies, and what is verified, as a verification summary names them (SLSA v1.0,
/// verification summary).
#[derive(Drop)]
pub struct SummaryWords {
    /// The id of the verifier.
    pub verifier: Text,
    /// The URI of the resource.
    pub resource: Text,
}

/// What is asked for on standard output.
#[derive(Drop)]
pub enum AskedOutput {
    /// The report, in this form.
    Report(Form),
    /// The body of a verification summary in place of a report that accepts: `--summary`.
    Summary(SummaryWords),
}
