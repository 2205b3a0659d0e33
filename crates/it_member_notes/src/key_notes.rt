//! The notes on members of key objects.
ghost use Rattle.std.specs.Prelude.{◌≡◌, IfOk, IfSome};
ghost use Rattle.it_borrowed.specs.Tree.{as_data};
ghost use Rattle.it_base.specs.Parts.{IsPart};
ghost use Rattle.it_base.specs.Text.{IsText};
ghost use Rattle.it_member_notes.specs.KeyMembers.{HasKeyMember, place_of};

use crate::key_member_note::KeyMemberNote;
use it_base::text::Text;
use it_borrowed::document::member;
use it_borrowed::text::text_of;
use it_findings::place::{KeyPlace, Place};
use json::Value;
use std::alloc::{AllocError, Global};

/// The note on the members of the object at a place, where that is a key object or its `keyval`.
pub(crate) fn key_note_of(
    alloc: Global,
    object: &Value<'_>,
    place: &Place,
) -> Result<Option<KeyMemberNote>, AllocError>
    ensures { IfOk result (λ found. IfSome found
        (λ note. HasKeyMember (as_data object.now) note × (place_of note ≡ place.now))) }
{
    match place {
        Place::Key(key) => other_key_id(alloc, object, key),
        Place::KeyValue(key) => private_key(alloc, object, key),
        _ => Ok(None),
    }
}

/// The note on the `keyid` of a key object, if it is a text that is not the object's id.
fn other_key_id(
    alloc: Global,
    object: &Value<'_>,
    key: &KeyPlace,
) -> Result<Option<KeyMemberNote>, AllocError>
    ensures { IfOk result (λ found. IfSome found
        (λ note. HasKeyMember (as_data object.now) note × (place_of note ≡ Place.Key key.now))) }
{
    let Some(keyid) = text_at(object, "keyid") else {
        return Ok(None);
    };
    if keyid == key.id().as_str() {
        return Ok(None);
    }
    Ok(Some(KeyMemberNote::OtherKeyId {
        key: key.copy(alloc)?,
        keyid: Text::copy(alloc, keyid)?,
    }))
}

/// The note on the `private` of a `keyval`, if it is a text that is not empty.
fn private_key(
    alloc: Global,
    keyval: &Value<'_>,
    key: &KeyPlace,
) -> Result<Option<KeyMemberNote>, AllocError>
    ensures { IfOk result (λ found. IfSome found
        (λ note. HasKeyMember (as_data keyval.now) note
        × (place_of note ≡ Place.KeyValue key.now))) }
{
    let Some(private) = text_at(keyval, "private") else {
        return Ok(None);
    };
    if private.is_empty() {
        return Ok(None);
    }
    Ok(Some(KeyMemberNote::PrivateKey {
        key: key.copy(alloc)?,
    }))
}

/// The text of the member of this name, if it is a text.
fn text_at<'t>(object: &Value<'t>, name: &str) -> Option<&'t str>
    ensures { IfSome result (λ text. IsPart IsText name.now (as_data object.now) text.now) }
{
    text_of(member(object, name)?)
}
