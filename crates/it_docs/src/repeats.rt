//! Names that must differ.
ghost use Rattle.std.specs.Prelude.{◌≡◌, IfOk, MatchOption, map};
ghost use Rattle.std.specs.List.{IsDistinct};
ghost use Rattle.std.specs.Str.{bytes_eq};
ghost use Rattle.it_docs.specs.Repeats.{IsFirstRepeat};

use std::alloc::{AllocError, Global};
use std::collections::BTreeSet;

/// The first name that equals an earlier one, or `None` where all names differ.
pub(crate) fn first_repeat<'n>(
    alloc: Global,
    names: &[&'n str],
) -> Result<Option<&'n str>, AllocError>
    ensures { IfOk result (λ found. MatchOption found
        (IsDistinct bytes_eq (map (λ n. n.now) names.now))
        (λ name. IsFirstRepeat (map (λ n. n.now) names.now) name.now)) }
{
    let mut seen = BTreeSet::new(alloc);
    for name in names {
        if !seen.insert(*name)? {
            return Ok(Some(*name));
        }
    }
    Ok(None)
}
