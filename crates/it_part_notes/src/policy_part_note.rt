//! The note on the part of a policy that fails.
ghost use Rattle.std.specs.Prelude.{◌≡◌, IfOk, IfSome};
ghost use Rattle.it_part_notes.specs.PartNotes.{TellsPolicyPart, policy_place};

use crate::members::policy_members;
use crate::part_note::{PartNote, PartPlace};
use crate::problem::part_note;
use it_borrowed::document_text::DocumentText;
use it_docs::policy_fault::PolicyPart;
use std::alloc::{AllocError, Global};

/// Says what is wrong with a part of a policy, in the text that was read as one: the first of its
/// members that is wrong, in the order of the format, and in a list of rules the first item that is
/// not a rule.
///
/// The answer is `None` where nothing is wrong with the part.
///
/// # Errors
///
/// `AllocError` where memory was refused.
pub fn policy_part_note(
    alloc: Global,
    text: &DocumentText<'_>,
    part: PolicyPart,
) -> Result<Option<PartNote>, AllocError>
    ensures { IfOk result (λ found. IfSome found (TellsPolicyPart text.now part)) }
{
    part_note(alloc, text, place_of(part), policy_members(part))
}

fn place_of(part: PolicyPart) -> PartPlace
    ensures { result ≡ policy_place part }
{
    match part {
        PolicyPart::Expectation(number) => PartPlace::Expectation(number),
        _ => PartPlace::Policy,
    }
}
