//! Members that are not looked at.
ghost use Rattle.std.specs.Prelude.{◌≡◌, ◌∷◌, [], IfOk};
ghost use Rattle.it_borrowed.specs.Tree.{as_data};
ghost use Rattle.it_findings.specs.Joined.{JoinedEach, Said};
ghost use Rattle.it_findings.specs.Members.{HasMeaning, UnreadMember, UnreadMembers, entries_in};
ghost use Rattle.it_borrowed.specs.NamedMembers.{members_in};

use crate::meaning::{has_meaning, have_meaning};
use crate::member_finding::MemberFinding;
use crate::place::Place;
use it_base::text::Text;
use it_borrowed::named_members::named_members;
use json::Value;
use std::alloc::{AllocError, Global};
use std::collections::BTreeMap;

/// What is found in the members of the object at a place.
pub(crate) fn unread_members(
    alloc: Global,
    place: &Place,
    object: &Value<'_>,
) -> Result<Vec<MemberFinding>, AllocError>
    ensures { IfOk result (λ found. UnreadMembers place.now (as_data object.now) found.items) }
{
    // Most objects need no order, since all of their members have a meaning.
    if have_meaning(place, object) {
        return Ok(Vec::new(alloc));
    }
    match named_members(alloc, object)? {
        Some(members) => each_member(alloc, place, members),
        None => Ok(Vec::new(alloc)),
    }
}

fn each_member(
    alloc: Global,
    place: &Place,
    members: BTreeMap<&str, &Value<'_>>,
) -> Result<Vec<MemberFinding>, AllocError>
    ensures { IfOk result (λ found. JoinedEach (UnreadMember place.now)
        (entries_in (members_in members.entry.entries)) found.items) }
{
    let mut found = Vec::new(alloc);
    for (name, _) in members {
        let mut here = unread_member(alloc, place, name)?;
        found.append(&mut here)?;
    }
    Ok(found)
}

fn unread_member(alloc: Global, place: &Place, name: &str) -> Result<Vec<MemberFinding>, AllocError>
    ensures { IfOk result (λ found. Said (¬ HasMeaning place.now name.now)
        (MemberFinding.Unread place.now name.now) found.items) }
{
    if has_meaning(place, name) {
        return Ok(Vec::new(alloc));
    }
    one_unread(alloc, place, name)
}

fn one_unread(alloc: Global, place: &Place, name: &str) -> Result<Vec<MemberFinding>, AllocError>
    ensures { IfOk result (λ found.
        found.items ≡ MemberFinding.Unread place.now name.now ∷ []) }
{
    let place = place.copy(alloc)?;
    let name = Text::copy(alloc, name)?;
    let mut found = Vec::new(alloc);
    found.push(MemberFinding::Unread { place, name })?;
    Ok(found)
}
