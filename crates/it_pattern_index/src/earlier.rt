//! The earliest of some patterns that match a path.
ghost use Rattle.std.specs.Prelude.{◌≡◌, ◌↔◌, Contains, IsTrue};
ghost use Rattle.it_pattern_index.specs.FirstMatch.{MatchesAt};
ghost use Rattle.it_pattern_index.specs.inside.Listed.{texts_of};
ghost use Rattle.it_pattern_index.specs.inside.Narrowed.{IsNarrowed};

use it_glob::Pattern;

/// The first of these places at which a pattern matches a path, or an earlier one that was found.
pub(crate) fn earlier_among(
    patterns: &[&Pattern],
    places: &[usize],
    path: &str,
    found: Option<usize>,
) -> Option<usize>
    ensures { IsNarrowed (texts_of patterns.now) path.now (Contains places.now) found result }
{
    let mut first = found;
    for place in places {
        first = earlier(patterns, *place, path, first);
    }
    first
}

/// This place, if the pattern there matches a path and none was found at or before it.
fn earlier(patterns: &[&Pattern], place: usize, path: &str, found: Option<usize>) -> Option<usize>
    ensures { IsNarrowed (texts_of patterns.now) path.now (λ p. p ≡ place) found result }
{
    match found {
        Some(known) if known <= place => found,
        _ => {
            if matches_at(patterns, place, path) {
                Some(place)
            } else {
                found
            }
        }
    }
}

/// Whether there is a pattern at a place, and it matches a path.
fn matches_at(patterns: &[&Pattern], place: usize, path: &str) -> bool
    ensures { IsTrue result ↔ MatchesAt (texts_of patterns.now) path.now place }
{
    match patterns.get(place) {
        Some(pattern) => pattern.matches(path),
        None => false,
    }
}
