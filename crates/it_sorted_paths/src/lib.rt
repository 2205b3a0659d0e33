//! Paths in the order of their bytes: which may come next, where one stands among them, and putting
//! them in that order.
//!
//! ```
//! if is_next(paths.as_slice(), path) {
//!     paths.push(path)?;
//! }
//! let place = place_of(paths.as_slice(), path);
//! ```
#![tactic(auto)]

ghost use Rattle.std.specs.Prelude.{◌↔◌, ◌≢◌, All, Contains, IsTrue, MatchOption, map};
ghost use Rattle.std.specs.Prelude.{string_bytes};
ghost use Rattle.std.specs.Cmp.Lexicographic.{slice_cmp};
ghost use Rattle.std.specs.List.Sorted.{IsSortedByKey, IsStrictlySortedBy};
ghost use Rattle.std.specs.Ordering.{nat_cmp};
ghost use Rattle.it_sorted_paths.specs.Order.{IsAt, IsNext};

/// Whether a path comes after the last of some paths, if there are any.
pub fn is_next(paths: &[&str], path: &str) -> bool
    ensures { IsTrue result ↔ IsNext paths.now path.now }
{
    match paths.last() {
        Some(last) => *last < path,
        None => true,
    }
}

/// The place of a path among sorted paths, or `None` where it is not one of them. Where they are
/// not sorted, it may be overlooked.
pub fn place_of(paths: &[&str], path: &str) -> Option<usize>
    ensures { MatchOption result
        (IsSortedByKey (λ found. found.now) (slice_cmp nat_cmp) paths.now
        → All (λ found. found.now ≢ path.now) paths.now)
        (IsAt paths.now path.now) }
{
    match paths.binary_search(&path) {
        Ok(place) => Some(place),
        Err(_) => None,
    }
}

/// Puts paths, or parts of paths, in the order of their bytes, and keeps each once.
pub fn put_in_order(paths: &mut Vec<String>)
    ensures same { (path : _) → Contains (map string_bytes paths.new.items) path
        ↔ Contains (map string_bytes paths.old.items) path }
    ensures rises { IsStrictlySortedBy (slice_cmp nat_cmp) (map string_bytes paths.new.items) }
{
    paths.sort_unstable();
    paths.dedup();
}
