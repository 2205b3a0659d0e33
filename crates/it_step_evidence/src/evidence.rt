//! What counts for each step of a layout (in-toto 1.0 section 5.2).
ghost use Rattle.std.specs.Prelude.{IfOk, ℤ};
ghost use Rattle.it_step_evidence.specs.StepEvidence.{AreStepEvidence, IsStepEvidence};

use crate::claimed::claimed_files;
use crate::counted_keys::counted_keys;
use it_base::sequence::Sequence;
use it_base::text::Text;
use it_chain::bundle::Bundle;
use it_docs::layout::Layout;
use it_docs::step::Step;
use it_dsse::checks::Checks;
use it_json_report::evidence::StepEvidence;
use std::alloc::{AllocError, Global};

/// The key ids by which something counts for each step of a layout over a bundle, in the layout's
/// order, and for each the names of the files by which it counts, with the places of the signatures
/// in their envelopes (in-toto 1.0 sections 4.4 and 5.2). Signatures are checked by the `checks`:
/// for each pair of a key id and a claimed file, and once more where it counts.
///
/// # Errors
///
/// `AllocError` where memory was refused, or where the checks refuse to check more signatures.
pub fn step_evidence<C: Checks>(
    alloc: Global,
    layout: &Layout,
    bundle: &Bundle,
    checks: &C,
) -> Result<Vec<StepEvidence>, AllocError>
    ensures { IfOk result (λ found. (moment : ℤ)
        → AreStepEvidence (record { panel = C.panel checks.now; moment = moment })
        layout.now bundle.now found.items) }
{
    let mut found = Vec::new(alloc);
    for step in layout.steps.as_slice() {
        found.push(evidence_of(alloc, layout, bundle, step, checks)?)?;
    }
    Ok(found)
}

/// What counts for a step of a layout over a bundle.
fn evidence_of<C: Checks>(
    alloc: Global,
    layout: &Layout,
    bundle: &Bundle,
    step: &Step,
    checks: &C,
) -> Result<StepEvidence, AllocError>
    ensures { IfOk result (λ found. (moment : ℤ)
        → IsStepEvidence (record { panel = C.panel checks.now; moment = moment })
        layout.now bundle.now step.now found) }
{
    let name = step.name.as_str();
    let claimed = claimed_files(alloc, name, bundle.files())?;
    let keys = counted_keys(alloc, checks, layout, step, claimed.as_slice())?;
    Ok(StepEvidence {
        name: Text::copy(alloc, name)?,
        keys: Sequence::from(keys),
    })
}
