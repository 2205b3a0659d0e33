//! What is at a place of a document.
ghost use Rattle.std.specs.Prelude.{◌≡◌, option_map};
ghost use Rattle.it_borrowed.specs.Tree.{as_data};
ghost use Rattle.it_part_notes.specs.PartNotes.{item_at as item_of, object_at as object_of};

use crate::part_note::PartPlace;
use it_borrowed::document::member;
use it_borrowed::items::{item, items_of};
use json::Value;

/// What is at a place of a document, if anything is. Takes no memory.
pub(crate) fn object_at<'d, 't>(document: &'d Value<'t>, place: PartPlace) -> Option<&'d Value<'t>>
    ensures { option_map (λ v. as_data v.now) result ≡ object_of place (as_data document.now) }
{
    match place {
        PartPlace::Policy | PartPlace::Layout | PartPlace::Envelope | PartPlace::Link => {
            Some(document)
        }
        PartPlace::Expectation(number) => item_at(document, "expectations", number),
        PartPlace::Step(number) => item_at(document, "steps", number),
        PartPlace::Inspection(number) => item_at(document, "inspect", number),
    }
}

/// The item with this number, from 0, in the list that is the member of this name. Takes no memory.
pub(crate) fn item_at<'d, 't>(
    object: &'d Value<'t>,
    name: &str,
    number: usize,
) -> Option<&'d Value<'t>>
    ensures { option_map (λ v. as_data v.now) result
        ≡ item_of name.now number (as_data object.now) }
{
    item(member(object, name)?, number)
}

/// The number of items in the list that is the member of this name, or 0 if it is not a list.
pub(crate) fn count_at(object: &Value<'_>, name: &str) -> usize {
    member(object, name).and_then(items_of).map_or(0, Vec::len)
}
