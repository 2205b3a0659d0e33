//! The summary of a delivery, where it is accepted.
ghost use Rattle.std.specs.Prelude.{IfOk, MatchOption};
ghost use Rattle.it_evidence.specs.Evidence.{IsBehind};
ghost use Rattle.it_verify.specs.Verdict.{OnAccepted};
ghost use Rattle.it_verify_command.specs.SummaryOutput.{IsSummaryText};

use crate::output_form::SummaryNames;
use it_json_report::evidence::Evidence;
use it_report::verdict::Verdict;
use it_summary::summary_body;
use std::alloc::{AllocError, Global};

/// The body of the verification summary of what stands behind a delivery that is accepted, and
/// nothing where the verdict refuses.
pub(crate) fn summary_text(
    alloc: Global,
    verdict: &Verdict,
    behind: &Option<Evidence>,
    names: &SummaryNames,
) -> Result<Vec<u8>, AllocError>
    ensures { (panel : _) (vouched : _) (inputs : _)
        → OnAccepted verdict.now (MatchOption behind.now ⊥ (IsBehind panel vouched inputs))
        → IfOk result
        (λ text. IsSummaryText names.now panel vouched inputs verdict.now text.items) }
{
    match (verdict, behind) {
        (Verdict::Refused(_), _) => Ok(Vec::new(alloc)),
        (Verdict::Accepted { .. }, Some(evidence)) => {
            let verifier = names.verifier.as_str();
            let resource = names.resource.as_str();
            summary_body(alloc, evidence, verifier, resource)
        }
        (Verdict::Accepted { .. }, None) => Err(AllocError),
    }
}
