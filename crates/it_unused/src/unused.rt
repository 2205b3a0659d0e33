//! The expectations that are unused in a delivery.
ghost use Rattle.std.specs.Prelude.{IfOk};
ghost use Rattle.it_unused.specs.Unused.{AreUnused};

use crate::paths::speaks_of_some;
use crate::used::used_places;
use it_digest::artifacts::Artifacts;
use it_docs::policy::Expectation;
use it_rules::paths::paths_of;
use std::alloc::{AllocError, Global};

/// The places, from 0 and in their order, of the expectations that are unused in a delivery: each
/// speaks of some delivered path, but of each of these an earlier one speaks as well, so that it is
/// the first for none. One that speaks of no delivered path is not among them. A path is tried only
/// for the expectations with a pattern whose front it begins with.
///
/// # Errors
///
/// `AllocError` where memory was refused.
pub fn unused_expectations(
    alloc: Global,
    expectations: &[Expectation],
    delivered: &Artifacts,
) -> Result<Vec<usize>, AllocError>
    ensures { IfOk result (λ places.
        AreUnused expectations.now delivered.now places.items) }
{
    let paths = paths_of(alloc, delivered)?;
    let used = used_places(alloc, expectations, paths.as_slice())?;
    let mut unused = Vec::new(alloc);
    for (place, expectation) in expectations.iter().enumerate() {
        if !used.contains(&place) && speaks_of_some(expectation, paths.as_slice()) {
            unused.push(place)?;
        }
    }
    Ok(unused)
}
