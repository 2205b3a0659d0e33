//! One extension of a certificate.
ghost use Rattle.std.specs.Prelude.{ℕ, true, List, MatchOption, IfOk};
ghost use Rattle.it_der.specs.Element.{AreElements};
ghost use Rattle.it_certificate.specs.Extension.{IsExtension, Stated, stated_of};
ghost use Rattle.it_certificate.specs.Extension.{extension_elements};

use crate::contents::contents_under;
use std::alloc::{AllocError, Global};

const TAGS: [u8; 2] = [6, 4];

const TAGS_IF_CRITICAL: [u8; 3] = [6, 1, 4];

const TRUE: [u8; 1] = [255];

/// An extension of a certificate (RFC 5280, section 4.2), whose value is not looked into.
#[derive(Drop)]
pub struct Extension<'b> {
    /// The content of its object identifier.
    pub id: &'b [u8],
    /// Whether a reader that does not know it must refuse the certificate.
    pub critical: bool,
    /// Its value.
    pub value: &'b [u8],
}

/// The extension that the content of a SEQUENCE is; `None` where it is none.
///
/// # Errors
///
/// `AllocError` where memory was refused.
pub(crate) fn extension_in(
    alloc: Global,
    content: &[u8],
) -> Result<Option<Extension<'_>>, AllocError>
    ensures { IfOk result (λ found. MatchOption found
        ((e : Stated) → IsExtension content.now e → ⊥)
        (λ extension. IsExtension content.now (stated_of extension))) }
{
    match contents_under(alloc, content, &TAGS)? {
        Some(contents) => Ok(Some(Extension {
            id: contents[0],
            critical: false,
            value: contents[1],
        })),
        None => critical_in(alloc, content),
    }
}

/// The critical extension that the content of a SEQUENCE is; `None` where it is none.
fn critical_in(alloc: Global, content: &[u8]) -> Result<Option<Extension<'_>>, AllocError>
    ensures { IfOk result (λ found. MatchOption found
        ((id value : List ℕ) → AreElements content.now (extension_elements true id value) → ⊥)
        (λ extension. IsExtension content.now (stated_of extension))) }
{
    let Some(contents) = contents_under(alloc, content, &TAGS_IF_CRITICAL)? else {
        return Ok(None);
    };
    if contents[1] != TRUE.as_slice() {
        return Ok(None);
    }
    Ok(Some(Extension {
        id: contents[0],
        critical: true,
        value: contents[2],
    }))
}
