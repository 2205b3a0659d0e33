//! The note on a payload that is not a link.
ghost use Rattle.std.specs.Prelude.{IfOk, IfSome};
ghost use Rattle.it_part_notes.specs.PartNotes.{TellsLink};

use crate::layout_part_note::layout_part_note;
use crate::members::link_members;
use crate::part_note::{PartNote, PartPlace, Problem};
use crate::problem::part_note;
use it_borrowed::document_text::DocumentText;
use it_docs::layout_fault::LayoutPart;
use json::Scratch;
use std::alloc::{AllocError, Global};

/// Says what is wrong with a `payload` that was read as a link (in-toto 1.0 section 4.4): it is not
/// a JSON object, or the first of its members that is wrong.
///
/// The answer is `None` where nothing is wrong, and where its `_type` is that of a layout.
///
/// # Errors
///
/// `AllocError` where memory was refused.
pub fn link_part_note(alloc: Global, payload: &[u8]) -> Result<Option<PartNote>, AllocError>
    ensures { IfOk result (λ found. IfSome found (TellsLink payload.now)) }
{
    let mut scratch = Scratch::new(alloc);
    let payload = DocumentText::read(alloc, payload, &mut scratch)?;
    let Some(note) = part_note(alloc, &payload, PartPlace::Link, link_members())? else {
        return Ok(None);
    };
    if is_of_type(&note.problem) && is_layout_by_type(alloc, &payload)? {
        return Ok(None);
    }
    Ok(Some(note))
}

/// Whether a problem is with the member `_type`.
fn is_of_type(problem: &Problem) -> bool {
    match problem {
        Problem::NoDocument(_) | Problem::NoObject(_) | Problem::Instead(_) => false,
        Problem::Member(member, _) => member.name() == "_type",
    }
}

/// Whether nothing is wrong with the `_type` of a payload that is read as a layout.
fn is_layout_by_type(alloc: Global, payload: &DocumentText<'_>) -> Result<bool, AllocError> {
    let found = layout_part_note(alloc, payload, &LayoutPart::WrongType)?;
    Ok(found.is_none())
}
