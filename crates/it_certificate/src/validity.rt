//! When a certificate is valid.
ghost use Rattle.std.specs.Prelude.{MatchOption, IfOk, map};
ghost use Rattle.it_der.specs.Element.{tagged_of};
ghost use Rattle.it_certificate.specs.Validity.{AreTimes, IsValidity};

use crate::time::{Moment, time_in};
use it_der::{Element, elements_of};
use std::alloc::{AllocError, Global};

/// When a certificate is valid.
#[derive(Clone, Copy)]
pub struct Validity {
    /// The first moment at which it is.
    pub first: Moment,
    /// The last one.
    pub last: Moment,
}

/// The validity that the content of the part is (RFC 5280, section 4.1.2.5). `None` where it is no
/// two times.
///
/// # Errors
///
/// `AllocError` where memory was refused.
pub(crate) fn validity_in(alloc: Global, content: &[u8]) -> Result<Option<Validity>, AllocError>
    ensures { IfOk result (λ found. MatchOption found
        ((v : Validity) → IsValidity content.now v → ⊥) (λ v. IsValidity content.now v)) }
{
    match elements_of(alloc, content)? {
        Some(elements) => Ok(times_of(&elements)),
        None => Ok(None),
    }
}

fn times_of(elements: &[Element<'_>]) -> Option<Validity>
    ensures { MatchOption result ((v : Validity) → AreTimes (map tagged_of elements.now) v → ⊥)
        (λ v. AreTimes (map tagged_of elements.now) v) }
{
    let [from, to] = elements else {
        return None;
    };
    let first = time_in(from.tag, from.content)?;
    let last = time_in(to.tag, to.content)?;
    Some(Validity { first, last })
}
