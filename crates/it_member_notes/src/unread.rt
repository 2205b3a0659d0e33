//! The notes on members that are not looked at.
ghost use Rattle.std.specs.Prelude.{◌≡◌, All, IfOk, option_map};
ghost use Rattle.serde_json.specs.Data.{object};
ghost use Rattle.it_borrowed.specs.Tree.{as_data};
ghost use Rattle.it_borrowed.specs.NamedMembers.{members_in};
ghost use Rattle.it_findings.specs.MeantName.{meant_name as meant_at};
ghost use Rattle.it_member_notes.specs.UnreadMembers.{HasUnread};

use crate::unread_member::UnreadMember;
use it_base::text::Text;
use it_borrowed::named_members::named_members;
use it_findings::place::Place;
use it_findings::{has_meaning, have_meaning, meant_name};
use json::Value;
use std::alloc::{AllocError, Global};
use std::collections::BTreeMap;

/// The notes on the members of the object at a place, in the order of their names.
pub(crate) fn unread_of(
    alloc: Global,
    object: &Value<'_>,
    place: &Place,
) -> Result<Vec<UnreadMember>, AllocError>
    ensures { IfOk result (λ notes. All
        (λ note. HasUnread (as_data object.now) note × (note.place ≡ place.now)) notes.items) }
{
    // Most objects need no order, since each of their members has a meaning.
    if have_meaning(place, object) {
        return Ok(Vec::new(alloc));
    }
    match named_members(alloc, object)? {
        None => Ok(Vec::new(alloc)),
        Some(members) => unread_among(alloc, members, place),
    }
}

fn unread_among(
    alloc: Global,
    members: BTreeMap<&str, &Value<'_>>,
    place: &Place,
) -> Result<Vec<UnreadMember>, AllocError>
    ensures { IfOk result (λ notes. All (λ note.
        HasUnread (object (members_in members.entry.entries)) note × (note.place ≡ place.now))
        notes.items) }
{
    let mut notes = Vec::new(alloc);
    for (name, _) in members {
        if !has_meaning(place, name) {
            notes.push(unread_member(alloc, place, name)?)?;
        }
    }
    Ok(notes)
}

fn unread_member(alloc: Global, place: &Place, name: &str) -> Result<UnreadMember, AllocError>
    ensures place { IfOk result (λ note. note.place ≡ place.now) }
    ensures name { IfOk result (λ note. note.name ≡ name.now) }
    ensures close { IfOk result (λ note.
        option_map (λ near. near.now) note.close ≡ meant_at place.now name.now) }
{
    Ok(UnreadMember {
        place: place.copy(alloc)?,
        name: Text::copy(alloc, name)?,
        close: meant_name(alloc, place, name)?,
    })
}
