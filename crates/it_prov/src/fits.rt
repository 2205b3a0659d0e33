//! Which expectation speaks of a file.
ghost use Rattle.std.specs.Prelude.{◌≡◌, IfOk, MatchOption};
ghost use Rattle.it_prov.specs.Finding.{NoneFits};
ghost use Rattle.it_prov.specs.Fits.{FitsAt, patterns_of};

use it_docs::policy::Expectation;
use it_pattern_index::PatternIndex;
use std::alloc::{AllocError, Global};

/// The place of the expectation that speaks of the file at a path, the first whose pattern matches
/// the path, or `None` where none does (this profile's choice). Takes no memory.
pub fn fitting(expectations: &[Expectation], path: &str) -> Option<usize>
    ensures { MatchOption result (NoneFits expectations.now path.now)
        (FitsAt expectations.now path.now) }
{
    expectations
        .iter()
        .position(|expectation| expectation.files.matches(path))
}

/// The patterns of expectations, in their order, indexed by their fronts (this profile's choice).
///
/// # Errors
///
/// `AllocError` where memory was refused.
pub fn patterns_in(
    alloc: Global,
    expectations: &[Expectation],
) -> Result<PatternIndex<'_>, AllocError>
    ensures { IfOk result (λ patterns. patterns ≡ patterns_of expectations.now) }
{
    let mut patterns = Vec::with_capacity(alloc, expectations.len())?;
    for expectation in expectations {
        patterns.push(&expectation.files)?;
    }
    PatternIndex::of(alloc, patterns)
}
