//! For which files a policy has expectations.
ghost use Rattle.std.specs.Prelude.{◌≡◌, IfOk, map, take};
ghost use Rattle.it_prov_notes.specs.Patterns.{patterns_note};

use it_base::sequence::Sequence;
use it_base::text::Text;
use it_docs::policy::Expectation;
use std::alloc::{AllocError, Global};

/// How many patterns are named.
const MOST_PATTERNS: usize = 10;

/// The patterns of the files that the expectations of a policy speak of.
#[derive(Drop)]
pub struct PatternsNote {
    /// The patterns of the first ten expectations, in their order.
    pub patterns: Sequence<Text>,
    /// Whether there are others.
    pub others: bool,
}

/// The patterns of the files that expectations speak of: those of the first ten.
///
/// # Errors
///
/// `AllocError` where memory was refused.
pub fn patterns_of(alloc: Global, expectations: &[Expectation]) -> Result<PatternsNote, AllocError>
    ensures { IfOk result (λ note. note ≡ patterns_note expectations.now) }
{
    let patterns = texts_of(alloc, front_of(expectations))?;
    Ok(PatternsNote {
        patterns: Sequence::from(patterns),
        others: expectations.len() > MOST_PATTERNS,
    })
}

/// The first expectations, those whose patterns are named.
fn front_of(expectations: &[Expectation]) -> &[Expectation]
    ensures { result.now ≡ take 10 expectations.now }
{
    if expectations.len() <= MOST_PATTERNS {
        return expectations;
    }
    &expectations[..MOST_PATTERNS]
}

/// The pattern of each expectation.
fn texts_of(alloc: Global, expectations: &[Expectation]) -> Result<Vec<Text>, AllocError>
    ensures { IfOk result (λ texts. texts.items
        ≡ map (λ expectation. expectation.files) expectations.now) }
{
    let mut texts = Vec::new(alloc);
    for expectation in expectations {
        texts.push(Text::copy(alloc, expectation.files.text())?)?;
    }
    Ok(texts)
}
