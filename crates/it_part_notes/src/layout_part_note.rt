//! The note on the part of a layout that fails.
ghost use Rattle.std.specs.Prelude.{◌≡◌, IfOk, IfSome};
ghost use Rattle.it_part_notes.specs.PartNotes.{TellsLayoutPart, layout_place};

use crate::members::layout_members;
use crate::part_note::{PartNote, PartPlace};
use crate::problem::part_note;
use it_borrowed::document_text::DocumentText;
use it_docs::layout_fault::LayoutPart;
use std::alloc::{AllocError, Global};

/// Says what is wrong with a part of a layout, in the payload that was read as one: the first of
/// its members that is wrong, in the order of the format, and in a list of rules the first item
/// that is not a rule.
///
/// The answer is `None` where nothing is wrong with the part, and for a name that occurs twice.
///
/// # Errors
///
/// `AllocError` where memory was refused.
pub fn layout_part_note(
    alloc: Global,
    payload: &DocumentText<'_>,
    part: &LayoutPart,
) -> Result<Option<PartNote>, AllocError>
    ensures { IfOk result (λ found. IfSome found (TellsLayoutPart payload.now part.now)) }
{
    part_note(alloc, payload, place_of(part), layout_members(part))
}

fn place_of(part: &LayoutPart) -> PartPlace
    ensures { result ≡ layout_place part.now }
{
    match part {
        LayoutPart::Step(number) => PartPlace::Step(*number),
        LayoutPart::Inspect(number) => PartPlace::Inspection(*number),
        _ => PartPlace::Layout,
    }
}
