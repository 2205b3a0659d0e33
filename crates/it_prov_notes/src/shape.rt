//! What a line that is not an envelope looks like.
ghost use Rattle.std.specs.Prelude.{List, ℕ, IfOk, IfSome};
ghost use Rattle.it_base.specs.Document.{IsDocument};
ghost use Rattle.it_borrowed.specs.Tree.{as_data};
ghost use Rattle.it_prov_notes.specs.ProvenanceNotes.{IsDocumentThat, IsTyped, LooksLike};

use crate::note::Shape;
use crate::room::Room;
use it_base::text::Text;
use it_borrowed::document::{member, read_document};
use it_borrowed::items::items_of;
use it_borrowed::parts::part;
use json::{Scratch, Value};
use std::alloc::{AllocError, Global};

/// What a line looks like, if there is room to look at it.
pub(crate) fn shape_of(alloc: Global, line: &[u8], room: &mut Room) -> Result<Shape, AllocError>
    ensures { IfOk result (LooksLike line.now) }
{
    if !room.takes(line.len()) {
        return Ok(Shape::Other);
    }
    let mut scratch = Scratch::new(alloc);
    match read_document(alloc, line, &mut scratch)? {
        None => Ok(Shape::NoDocument),
        Some(value) => document_shape(alloc, &value),
    }
}

fn document_shape(alloc: Global, value: &Value<'_>) -> Result<Shape, AllocError>
    ensures { (line : List ℕ) → IsDocument line (as_data value.now) → IfOk result (LooksLike line) }
{
    if items_of(value).is_some() {
        return Ok(Shape::List);
    }
    if member(value, "dsseEnvelope").is_some() {
        return Ok(Shape::Bundle);
    }
    match part::<Text>(alloc, value, "_type")? {
        None => Ok(Shape::Other),
        Some(text) => Ok(Shape::Typed(text)),
    }
}

/// The text in the member `_type`, if the bytes are a document with one.
pub(crate) fn type_in(alloc: Global, bytes: &[u8]) -> Result<Option<Text>, AllocError>
    ensures { IfOk result (λ found. IfSome found (λ text.
        IsDocumentThat (IsTyped text) bytes.now)) }
{
    let mut scratch = Scratch::new(alloc);
    match read_document(alloc, bytes, &mut scratch)? {
        None => Ok(None),
        Some(value) => part::<Text>(alloc, &value, "_type"),
    }
}
