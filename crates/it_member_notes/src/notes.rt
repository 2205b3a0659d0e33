//! The notes on members of a policy and of a layout.
ghost use Rattle.std.specs.Prelude.{IfOk};
ghost use Rattle.it_member_notes.specs.MemberNotes.{TellsLayoutMembers, TellsPolicyMembers};

use crate::member_notes::MemberNotes;
use crate::places::{layout_places, policy_places};
use it_borrowed::document_text::DocumentText;
use std::alloc::{AllocError, Global};

/// The notes on a policy's members that are not looked at, and on those of its key objects that may
/// be unintended, in the order of the places and of the names. There are none where the text is not
/// a JSON document.
///
/// # Errors
///
/// `AllocError` where memory was refused.
pub fn policy_notes(alloc: Global, text: &DocumentText<'_>) -> Result<MemberNotes, AllocError>
    ensures { IfOk result (TellsPolicyMembers text.now) }
{
    let Some(document) = text.document() else {
        return Ok(MemberNotes::none(alloc));
    };
    let places = policy_places(alloc, document)?;
    MemberNotes::at(alloc, document, places.as_slice())
}

/// The notes on a layout's members that are not looked at, and on those of its key objects that may
/// be unintended, in the order of the places and of the names. There are none where the text, which
/// is the payload of the layout's envelope, is not a JSON document.
///
/// # Errors
///
/// `AllocError` where memory was refused.
pub fn layout_notes(alloc: Global, text: &DocumentText<'_>) -> Result<MemberNotes, AllocError>
    ensures { IfOk result (TellsLayoutMembers text.now) }
{
    let Some(document) = text.document() else {
        return Ok(MemberNotes::none(alloc));
    };
    let places = layout_places(alloc, document)?;
    MemberNotes::at(alloc, document, places.as_slice())
}
