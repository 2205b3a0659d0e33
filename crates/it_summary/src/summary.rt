//! The body of a verification summary (SLSA v1.0, verification summary).
ghost use Rattle.std.specs.Prelude.{◌≡◌, IfOk};
ghost use Rattle.it_docs.specs.Statement.{StatementOf};
ghost use Rattle.it_summary.specs.Summary.{statement_of, summary_of};

use crate::predicate::predicate_value;
use crate::subjects::subjects_value;
use it_json_report::evidence::Evidence;
use it_making::statement_line;
use std::alloc::{AllocError, Global};

/// The predicate type of verification summaries (SLSA v1.0, verification summary).
const SUMMARY: &str = "https://slsa.dev/verification_summary/v1";

/// The body of a verification summary that passed (SLSA v1.0, verification summary), and a line
/// feed: a Statement (in-toto Attestation, Statement v1) about the delivered files, as compact JSON
/// with the members of each object in the order of their bytes. The `evidence` is what stands
/// behind the delivery, `verifier` the id of who verified it, and `resource` the URI under which
/// the delivery was asked for. What is written reads back as a Statement whose subjects are the
/// delivered files.
///
/// # Errors
///
/// `AllocError` where memory was refused.
pub fn summary_body(
    alloc: Global,
    evidence: &Evidence,
    verifier: &str,
    resource: &str,
) -> Result<Vec<u8>, AllocError>
    ensures body { IfOk result
        (λ text. text.items ≡ summary_of evidence.now verifier.now resource.now) }
    ensures reads_back { IfOk result
        (λ text. StatementOf text.items (statement_of evidence.now.files)) }
{
    let subjects = subjects_value(alloc, evidence.files.as_slice())?;
    let predicate = predicate_value(alloc, evidence, verifier, resource)?;
    statement_line(alloc, subjects, SUMMARY, predicate)
}
