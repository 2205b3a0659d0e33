//! What is at a place of a document.
ghost use Rattle.std.specs.Prelude.{◌≡◌, option_map};
ghost use Rattle.it_borrowed.specs.Tree.{as_data};
ghost use Rattle.it_member_notes.specs.Places.{builder_at as builder_of, inner_at as inner_of};
ghost use Rattle.it_member_notes.specs.Places.{item_at as item_of, key_at as key_of};
ghost use Rattle.it_member_notes.specs.Places.{object_at as object_of};

use it_borrowed::document::member;
use it_borrowed::items::item;
use it_findings::place::{KeyPlace, Place};
use json::Value;

/// What is at a place of a document, if anything is. Takes no memory.
pub(crate) fn object_at<'d, 't>(document: &'d Value<'t>, place: &Place) -> Option<&'d Value<'t>>
    ensures { option_map (λ v. as_data v.now) result ≡ object_of place.now (as_data document.now) }
{
    match place {
        Place::Policy | Place::Layout => Some(document),
        Place::Expectation(number) => item_at(document, "expectations", *number),
        Place::Builder {
            expectation,
            builder,
        } => builder_at(document, *expectation, *builder),
        Place::Step(number) => item_at(document, "steps", *number),
        Place::Inspection(number) => item_at(document, "inspect", *number),
        Place::Key(key) => key_at(document, key),
        Place::KeyValue(key) => member(key_at(document, key)?, "keyval"),
    }
}

fn item_at<'d, 't>(object: &'d Value<'t>, name: &str, number: usize) -> Option<&'d Value<'t>>
    ensures { option_map (λ v. as_data v.now) result
        ≡ item_of name.now number (as_data object.now) }
{
    item(member(object, name)?, number)
}

fn inner_at<'d, 't>(object: &'d Value<'t>, outer: &str, name: &str) -> Option<&'d Value<'t>>
    ensures { option_map (λ v. as_data v.now) result
        ≡ inner_of outer.now name.now (as_data object.now) }
{
    member(member(object, outer)?, name)
}

fn builder_at<'d, 't>(
    document: &'d Value<'t>,
    expectation: usize,
    builder: usize,
) -> Option<&'d Value<'t>>
    ensures { option_map (λ v. as_data v.now) result
        ≡ builder_of expectation builder (as_data document.now) }
{
    item_at(
        item_at(document, "expectations", expectation)?,
        "builders",
        builder,
    )
}

fn key_at<'d, 't>(document: &'d Value<'t>, place: &KeyPlace) -> Option<&'d Value<'t>>
    ensures { option_map (λ v. as_data v.now) result ≡ key_of place.now (as_data document.now) }
{
    match place {
        KeyPlace::Owner(id) => inner_at(document, "owners", id.as_str()),
        KeyPlace::Builder {
            expectation,
            builder,
            id,
        } => inner_at(
            builder_at(document, *expectation, *builder)?,
            "keys",
            id.as_str(),
        ),
        KeyPlace::Layout(id) => inner_at(document, "keys", id.as_str()),
    }
}
