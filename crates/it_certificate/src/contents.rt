//! Elements whose tags are known.
ghost use Rattle.std.specs.Prelude.{◌≡◌, List, MatchOption, IfOk, length, map};
ghost use Rattle.it_der.specs.Element.{AreElements, Tagged};
ghost use Rattle.it_certificate.specs.Parts.{with_tags};

use it_der::{Element, elements_of};
use std::alloc::{AllocError, Global};

/// The contents of the elements that the bytes are, where these are their tags.
///
/// # Errors
///
/// `AllocError` where memory was refused.
pub(crate) fn contents_under<'b>(
    alloc: Global,
    bytes: &'b [u8],
    tags: &[u8],
) -> Result<Option<Vec<&'b [u8]>>, AllocError>
    ensures { IfOk result (λ found. MatchOption found
        ((elements : List Tagged) → AreElements bytes.now elements
        → map (λ e. e.tag) elements ≡ tags.now → ⊥)
        (λ contents. (length contents.items ≡ length tags.now)
        × AreElements bytes.now (with_tags tags.now (map (λ c. c.now) contents.items)))) }
{
    let Some(elements) = elements_of(alloc, bytes)? else {
        return Ok(None);
    };
    let found = tags_of(alloc, &elements)?;
    if found.as_slice() != tags {
        return Ok(None);
    }
    let contents = contents_of(alloc, &elements)?;
    Ok(Some(contents))
}

fn tags_of(alloc: Global, elements: &[Element<'_>]) -> Result<Vec<u8>, AllocError>
    ensures { IfOk result (λ tags. tags.items ≡ map (λ e. e.tag) elements.now) }
{
    elements.iter().map(|element| element.tag).collect(alloc)
}

fn contents_of<'b>(alloc: Global, elements: &[Element<'b>]) -> Result<Vec<&'b [u8]>, AllocError>
    ensures { IfOk result (λ contents. contents.items ≡ map (λ e. e.content) elements.now) }
{
    elements
        .iter()
        .map(|element| element.content)
        .collect(alloc)
}
