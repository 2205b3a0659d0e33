//! The expectations that are unused for the delivered files.
ghost use Rattle.std.specs.Prelude.{◌≡◌, IfOk, map};
ghost use Rattle.it_strict.specs.Found.{UnusedFound};

use it_findings::finding::Finding;
use it_unused::unused_expectations;
use it_verify::documents::Documents;
use std::alloc::{AllocError, Global};

/// The expectations of the policy that are unused for the delivered files, in their order.
pub(crate) fn unused_findings(
    alloc: Global,
    documents: &Documents,
) -> Result<Vec<Finding>, AllocError>
    ensures { IfOk result (λ found. UnusedFound documents.now found.items) }
{
    let expectations = documents.policy.expectations.as_slice();
    let places = unused_expectations(alloc, expectations, &documents.delivered)?;
    findings_at(alloc, places.as_slice())
}

/// The findings on the expectations at these places.
fn findings_at(alloc: Global, places: &[usize]) -> Result<Vec<Finding>, AllocError>
    ensures { IfOk result (λ found. found.items ≡ map Finding.UnusedExpectation places.now) }
{
    let mut found = Vec::new(alloc);
    for place in places {
        found.push(Finding::UnusedExpectation(*place))?;
    }
    Ok(found)
}
