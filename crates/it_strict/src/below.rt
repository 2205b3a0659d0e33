//! What is found in the sublayouts of a delivery that is accepted.
ghost use Rattle.std.specs.Prelude.{◌≤◌, [], IfOk};
ghost use Rattle.std.specs.List.{AllZip};
ghost use Rattle.it_chain.specs.Chain.{Chain};
ghost use Rattle.it_sublayouts.specs.Counted.{AreCounted};
ghost use Rattle.it_strict.specs.Below.{AreFoundBelow, IsFoundBelow};
ghost use Rattle.it_verify.specs.Documents.{setting_of};

use crate::counting::counting_findings;
use it_base::sequence::Sequence;
use it_base::text::Text;
use it_dsse::checks::Checks;
use it_findings::finding::Finding;
use it_sublayouts::{CountedSublayout, Level, counted_sublayouts};
use it_verify::documents::Documents;
use it_verify::inputs::Inputs;
use std::alloc::{AllocError, Global};

/// What is found in a sublayout.
#[derive(Drop)]
pub struct FoundBelow {
    /// The sublayouts down to this one, the outermost first: each by the name of its step and the
    /// key id that signed it, as a refusal has them.
    pub at: Sequence<(Text, Text)>,
    /// What is found in it and counts, as of the outermost layout.
    pub findings: Sequence<Finding>,
}

/// What is found in each sublayout that counts, where the layout of a delivery holds: for each step
/// in the layout's order those of its key ids in the order of their bytes, each once over a folder,
/// and after each the sublayouts below it. The `checks` check the signatures.
///
/// # Errors
///
/// `AllocError` where memory was refused, or where the checks refuse to check more signatures.
pub fn found_below<C: Checks>(
    alloc: Global,
    inputs: &Inputs,
    documents: &Documents,
    checks: &C,
) -> Result<Vec<FoundBelow>, AllocError>
    requires shallow { inputs.now.depth ≤ 8 }
    requires holds { (results : _) × Chain (setting_of (C.panel checks.now) documents.now)
        inputs.now.depth documents.now.layout inputs.now.links results }
    ensures { IfOk result (λ found.
        AreFoundBelow (C.panel checks.now) inputs.now documents.now found.items) }
{
    let sublayouts = counted_below(alloc, inputs, documents, checks)?;
    found_in_each(alloc, sublayouts)
}

/// The sublayouts that count, where the layout of a delivery holds, in the same order. The `checks`
/// check the signatures.
///
/// # Errors
///
/// `AllocError` where memory was refused, or where the checks refuse to check more signatures.
pub(crate) fn counted_below<C: Checks>(
    alloc: Global,
    inputs: &Inputs,
    documents: &Documents,
    checks: &C,
) -> Result<Vec<CountedSublayout>, AllocError>
    requires shallow { inputs.now.depth ≤ 8 }
    requires holds { (results : _) × Chain (setting_of (C.panel checks.now) documents.now)
        inputs.now.depth documents.now.layout inputs.now.links results }
    ensures { IfOk result (λ sublayouts. AreCounted (setting_of (C.panel checks.now)
        documents.now) inputs.now.depth [] documents.now.layout inputs.now.links
        sublayouts.items) }
{
    let level = Level {
        at: &[],
        layout: &documents.layout,
        links: &inputs.links,
        moment: documents.moment,
        depth: inputs.depth,
    };
    counted_sublayouts(alloc, &level, checks)
}

/// What is found in each of some sublayouts.
///
/// # Errors
///
/// `AllocError` where memory was refused.
pub(crate) fn found_in_each(
    alloc: Global,
    sublayouts: Vec<CountedSublayout>,
) -> Result<Vec<FoundBelow>, AllocError>
    ensures { IfOk result (λ found. AllZip IsFoundBelow sublayouts.items found.items) }
{
    let mut found = Vec::new(alloc);
    for sublayout in sublayouts {
        found.push(found_in_one(alloc, sublayout)?)?;
    }
    Ok(found)
}

/// What is found in a sublayout.
fn found_in_one(alloc: Global, sublayout: CountedSublayout) -> Result<FoundBelow, AllocError>
    ensures { IfOk result (IsFoundBelow sublayout) }
{
    let CountedSublayout {
        at,
        payload,
        layout,
        steps,
    } = sublayout;
    let findings = counting_findings(alloc, payload.as_slice(), &layout, steps.as_slice())?;
    let findings = Sequence::from(findings);
    Ok(FoundBelow { at, findings })
}
