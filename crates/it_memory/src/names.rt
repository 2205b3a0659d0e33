//! The names of what lies in a folder.
ghost use Rattle.std.specs.Prelude.{◌↔◌, Contains, IfOk, MatchOption, map, string_bytes};
ghost use Rattle.std.specs.Cmp.Lexicographic.{slice_cmp};
ghost use Rattle.std.specs.List.Sorted.{IsStrictlySortedBy};
ghost use Rattle.std.specs.Ordering.{nat_cmp};
ghost use Rattle.it_memory.specs.inside.Names.{HasNameAfter, IsNameAfter};

use it_sorted_paths::put_in_order;
use std::alloc::{AllocError, Global};

/// The names of what lies in a folder, in the order of their bytes.
///
/// `front` is the folder's path and a slash, with which all of the `paths` begin.
///
/// # Errors
///
/// `AllocError` where memory was refused.
pub(crate) fn names_in(
    alloc: Global,
    paths: &[&str],
    front: &str,
) -> Result<Vec<String>, AllocError>
    ensures each { IfOk result (λ names. (name : _)
        → Contains (map string_bytes names.items) name ↔ HasNameAfter front.now paths.now name) }
    ensures rise { IfOk result
        (λ names. IsStrictlySortedBy (slice_cmp nat_cmp) (map string_bytes names.items)) }
{
    let mut names = names_after(alloc, paths, front)?;
    put_in_order(&mut names);
    Ok(names)
}

/// The name that follows the front of each path, in the order of the paths.
fn names_after(alloc: Global, paths: &[&str], front: &str) -> Result<Vec<String>, AllocError>
    ensures { IfOk result (λ names. (name : _)
        → Contains (map string_bytes names.items) name ↔ HasNameAfter front.now paths.now name) }
{
    let mut names = Vec::new(alloc);
    for path in paths {
        if let Some(name) = name_after(path, front) {
            names.push(String::from_str(alloc, name)?)?;
        }
    }
    Ok(names)
}

/// The name that follows a front of a path, up to the next slash.
fn name_after<'a>(path: &'a str, front: &str) -> Option<&'a str>
    ensures { MatchOption result ((name : _) → ¬ IsNameAfter front.now path.now name)
        (λ name. IsNameAfter front.now path.now name.now) }
{
    let inside = path.strip_prefix(front)?;
    match inside.split_once('/') {
        Some((name, _)) => Some(name),
        None => Some(inside),
    }
}
