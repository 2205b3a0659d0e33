//! The extensions of a certificate.
ghost use Rattle.std.specs.Prelude.{List, MatchOption, IfOk, map};
ghost use Rattle.it_certificate.specs.Extension.{AreExtensions, Stated, stated_of};

use crate::extension::{Extension, extension_in};
use it_der::{content_of, elements_of};
use std::alloc::{AllocError, Global};

const SEQUENCE: u8 = 48;

/// The extensions in the part of a certificate that has them (RFC 5280, section 4.1.2.9), in order.
/// `None` where the part does not read as extensions. Two may have one identifier.
///
/// # Errors
///
/// `AllocError` where memory was refused.
pub fn read_extensions(
    alloc: Global,
    content: &[u8],
) -> Result<Option<Vec<Extension<'_>>>, AllocError>
    ensures { IfOk result (λ found. MatchOption found
        ((extensions : List Stated) → AreExtensions content.now extensions → ⊥)
        (λ extensions. AreExtensions content.now (map stated_of extensions.items))) }
{
    let Some(inner) = content_of(content, SEQUENCE) else {
        return Ok(None);
    };
    let Some(elements) = elements_of(alloc, inner)? else {
        return Ok(None);
    };
    let mut extensions = Vec::new(alloc);
    for element in &elements {
        if element.tag != SEQUENCE {
            return Ok(None);
        }
        let Some(extension) = extension_in(alloc, element.content)? else {
            return Ok(None);
        };
        extensions.push(extension)?;
    }
    Ok(Some(extensions))
}
