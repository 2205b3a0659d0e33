//! The ranges of a set, sorted so that a character is found by binary search.
ghost use Rattle.std.specs.Prelude.{◌≡◌, [], IfOk, MatchOption};
ghost use Rattle.std.specs.List.Sorted.{IsNonDecreasingBy};
ghost use Rattle.it_glob.specs.inside.FirstRange.{IsFirstRange};
ghost use Rattle.it_glob.specs.inside.Ranges.{AreSearchable, is_in_some, widened, written_ranges};

use std::alloc::{AllocError, Global};

/// The characters from the first to the last, both included.
#[derive(Clone, Copy)]
pub(crate) struct Range {
    first: char,
    last: char,
}

/// The ranges of a body, in an order in which `is_in_ranges` can search them. Takes time in the
/// order of n log n.
pub(crate) fn ranges_of(alloc: Global, body: &[char]) -> Result<Vec<Range>, AllocError>
    ensures { IfOk result (λ ranges. AreSearchable body.now ranges.items) }
{
    let mut ranges = ranges_as_written(alloc, body)?;
    ranges.sort_unstable_by_key(|range| range.first);
    widen(alloc, ranges.as_slice())
}

/// Whether some range has a character, found by binary search. Where the ranges rise, the last that
/// begins at or before the character reaches as far as any of those does.
pub(crate) fn is_in_ranges(ranges: &[Range], character: char) -> bool
    requires firsts { IsNonDecreasingBy (λ range. range.first) ranges.now }
    requires lasts { IsNonDecreasingBy (λ range. range.last) ranges.now }
    ensures { result ≡ is_in_some ranges.now character }
{
    let count = ranges.partition_point(|range| range.first <= character);
    count > 0 && character <= ranges[count - 1].last
}

/// Ranges that are sorted by their first characters, each made to reach as far as any before it.
fn widen(alloc: Global, ranges: &[Range]) -> Result<Vec<Range>, AllocError>
    ensures { IfOk result (λ wide. wide.items ≡ widened 0 ranges.now) }
{
    let mut wide = Vec::new(alloc);
    let mut reach = '\0';
    for range in ranges {
        if range.last > reach {
            reach = range.last;
        }
        wide.push(Range {
            first: range.first,
            last: reach,
        })?;
    }
    Ok(wide)
}

/// The ranges of a body, as they are written.
fn ranges_as_written(alloc: Global, body: &[char]) -> Result<Vec<Range>, AllocError>
    ensures { IfOk result (λ ranges. ranges.items ≡ written_ranges body.now) }
{
    let mut ranges = Vec::new(alloc);
    let mut rest = body;
    while let Some((first, last, after)) = split_first_range(rest) {
        ranges.push(Range { first, last })?;
        rest = after;
    }
    Ok(ranges)
}

/// The first and the last character of the range that a body begins with, and the body after it.
/// A character that matches only itself is a range of one.
fn split_first_range(body: &[char]) -> Option<(char, char, &[char])>
    ensures { MatchOption result (body.now ≡ []) (λ p. IsFirstRange body.now p.0 p.1 p.2.now) }
{
    let (first, others) = body.split_first()?;
    if others.len() >= 2 && others[0] == '-' {
        Some((*first, others[1], &others[2..]))
    } else {
        Some((*first, *first, others))
    }
}
