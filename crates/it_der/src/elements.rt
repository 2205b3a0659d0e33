//! Elements, one after another.
ghost use Rattle.std.specs.Prelude.{List, MatchOption, IfOk, map};
ghost use Rattle.it_der.specs.Element.{AreElements, Tagged, tagged_of};

use crate::front::first_element;
use std::alloc::{AllocError, Global};

/// An element.
#[derive(Drop)]
pub struct Element<'b> {
    /// Its tag.
    pub tag: u8,
    /// Its content.
    pub content: &'b [u8],
}

/// The elements that the bytes are, one after another. `None` where the bytes are no elements, or
/// have anything before, between or after them.
///
/// # Errors
///
/// `AllocError` where memory was refused.
pub fn elements_of(alloc: Global, bytes: &[u8]) -> Result<Option<Vec<Element<'_>>>, AllocError>
    ensures { IfOk result (λ found. MatchOption found
        ((elements : List Tagged) → AreElements bytes.now elements → ⊥)
        (λ elements. AreElements bytes.now (map tagged_of elements.items))) }
{
    let mut elements = Vec::new(alloc);
    let mut rest = bytes;
    while !rest.is_empty() {
        let Some(first) = first_element(rest) else {
            return Ok(None);
        };
        elements.push(Element {
            tag: first.tag,
            content: first.content,
        })?;
        rest = first.rest;
    }
    Ok(Some(elements))
}
