//! What a certificate signs, its algorithm and its signature.
ghost use Rattle.std.specs.Prelude.{ℕ, List, MatchOption, IfOk};
ghost use Rattle.it_der.specs.Element.{AreElements};
ghost use Rattle.it_certificate.specs.Parts.{outer_elements};

use crate::contents::contents_under;
use std::alloc::{AllocError, Global};

const TAGS: [u8; 3] = [48, 48, 3];

/// The contents of the parts of a certificate.
#[derive(Drop)]
pub(crate) struct Outer<'b> {
    pub(crate) signed: &'b [u8],
    pub(crate) algorithm: &'b [u8],
    pub(crate) signature: &'b [u8],
}

/// The parts that the content of a certificate is; `None` where it is no such parts.
///
/// # Errors
///
/// `AllocError` where memory was refused.
pub(crate) fn outer_in(alloc: Global, content: &[u8]) -> Result<Option<Outer<'_>>, AllocError>
    ensures { IfOk result (λ found. MatchOption found
        ((signed algorithm signature : List ℕ)
        → AreElements content.now (outer_elements signed algorithm signature) → ⊥)
        (λ outer. AreElements content.now
        (outer_elements outer.signed.now outer.algorithm.now outer.signature.now))) }
{
    let Some(contents) = contents_under(alloc, content, &TAGS)? else {
        return Ok(None);
    };
    let bits = contents[2];
    if bits.is_empty() {
        return Ok(None);
    }
    // How many bits of the last byte do not count.
    if bits[0] != 0 {
        return Ok(None);
    }
    Ok(Some(Outer {
        signed: contents[0],
        algorithm: contents[1],
        signature: &bits[1..],
    }))
}
