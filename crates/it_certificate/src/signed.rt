//! The parts that are signed.
ghost use Rattle.std.specs.Prelude.{MatchOption, IfOk};
ghost use Rattle.it_certificate.specs.Parts.{AreSigned, Parts};
ghost use Rattle.it_certificate.specs.inside.Signed.{signed_parts};

use crate::contents::contents_under;
use std::alloc::{AllocError, Global};

const TAGS: [u8; 8] = [160, 2, 48, 48, 48, 48, 48, 163];

/// An INTEGER, the number of version 3.
const VERSION: [u8; 3] = [2, 1, 2];

/// The contents of the parts that are signed.
#[derive(Drop)]
pub(crate) struct Signed<'b> {
    pub(crate) serial: &'b [u8],
    pub(crate) algorithm: &'b [u8],
    pub(crate) issuer: &'b [u8],
    pub(crate) validity: &'b [u8],
    pub(crate) subject: &'b [u8],
    pub(crate) key: &'b [u8],
    pub(crate) extensions: &'b [u8],
}

/// The parts that the content of a TBSCertificate is; `None` where it is no such parts.
///
/// # Errors
///
/// `AllocError` where memory was refused.
pub(crate) fn signed_in(alloc: Global, content: &[u8]) -> Result<Option<Signed<'_>>, AllocError>
    ensures { IfOk result (λ found. MatchOption found
        ((p : Parts) → AreSigned content.now p → ⊥)
        (λ signed. AreSigned content.now (signed_parts signed))) }
{
    let Some(contents) = contents_under(alloc, content, &TAGS)? else {
        return Ok(None);
    };
    if contents[0] != VERSION.as_slice() {
        return Ok(None);
    }
    if contents[1].is_empty() {
        return Ok(None);
    }
    Ok(Some(Signed {
        serial: contents[1],
        algorithm: contents[2],
        issuer: contents[3],
        validity: contents[4],
        subject: contents[5],
        key: contents[6],
        extensions: contents[7],
    }))
}
