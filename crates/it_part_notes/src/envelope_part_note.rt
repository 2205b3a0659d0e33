//! The note on bytes that are not an envelope.
ghost use Rattle.std.specs.Prelude.{IfOk, IfSome};
ghost use Rattle.it_part_notes.specs.PartNotes.{TellsEnvelope};

use crate::instead::instead_of;
use crate::members::envelope_members;
use crate::part_note::{PartNote, PartPlace, Problem};
use crate::problem::part_note;
use it_borrowed::document_text::DocumentText;
use json::Scratch;
use std::alloc::{AllocError, Global};

/// Says what is wrong with `bytes` that were read as an envelope (DSSE v1.0): they are not a JSON
/// object, they are a document of another kind, or the first of its members that is wrong.
///
/// The answer is `None` where nothing is wrong.
///
/// # Errors
///
/// `AllocError` where memory was refused.
pub fn envelope_part_note(alloc: Global, bytes: &[u8]) -> Result<Option<PartNote>, AllocError>
    ensures { IfOk result (λ found. IfSome found (TellsEnvelope bytes.now)) }
{
    let mut scratch = Scratch::new(alloc);
    let text = DocumentText::read(alloc, bytes, &mut scratch)?;
    let Some(note) = part_note(alloc, &text, PartPlace::Envelope, envelope_members())? else {
        return Ok(None);
    };
    match instead_note(alloc, &text)? {
        Some(other) => Ok(Some(other)),
        None => Ok(Some(note)),
    }
}

/// Says what a text is in place of an envelope, if that is known.
fn instead_note(alloc: Global, text: &DocumentText<'_>) -> Result<Option<PartNote>, AllocError>
    ensures { IfOk result (λ found. IfSome found (TellsEnvelope text.now)) }
{
    let Some(document) = text.document() else {
        return Ok(None);
    };
    let Some(instead) = instead_of(alloc, document)? else {
        return Ok(None);
    };
    let place = PartPlace::Envelope;
    let problem = Problem::Instead(instead);
    Ok(Some(PartNote { place, problem }))
}
