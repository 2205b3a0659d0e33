//! The expectations that are the first to speak of some path.
ghost use Rattle.std.specs.Prelude.{◌↔◌, ℕ, IfOk, IsTrue};
ghost use Rattle.std.specs.BTreeSet.{contains};
ghost use Rattle.std.specs.Ordering.{nat_cmp};
ghost use Rattle.it_prov.specs.Fits.{patterns_of};
ghost use Rattle.it_unused.specs.inside.Used.{IsUsed};

use it_docs::policy::Expectation;
use it_prov::fits::patterns_in;
use std::alloc::{AllocError, Global};
use std::collections::BTreeSet;

/// The places of the expectations that are the first to speak of one of the paths.
pub(crate) fn used_places(
    alloc: Global,
    expectations: &[Expectation],
    paths: &[&str],
) -> Result<BTreeSet<usize>, AllocError>
    ensures { IfOk result (λ used. (place : ℕ) → IsTrue (contains nat_cmp used place)
        ↔ IsUsed (patterns_of expectations.now) paths.now place) }
{
    let patterns = patterns_in(alloc, expectations)?;
    let mut used = BTreeSet::new(alloc);
    for path in paths {
        if let Some(place) = patterns.first_match(path) {
            used.insert(place)?;
        }
    }
    Ok(used)
}
