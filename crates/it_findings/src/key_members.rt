//! What is found in the members of key objects.
ghost use Rattle.std.specs.Prelude.{◌≡◌, ◌↔◌, ◌∷◌, [], IfOk, IsTrue, MatchOption, codes};
ghost use Rattle.std.specs.Prelude.{option_and_then, option_map, string_bytes};
ghost use Rattle.serde_json.specs.Find.{as_str};
ghost use Rattle.it_borrowed.specs.Tree.{as_data};
ghost use Rattle.it_base.specs.Document.{member_at};
ghost use Rattle.it_findings.specs.Joined.{JoinedEach, Said};
ghost use Rattle.it_findings.specs.KeyPlaces.{key_place as place_under};
ghost use Rattle.it_findings.specs.Members.{HasPrivate, KeyListMembers, KeyMembers};
ghost use Rattle.it_findings.specs.Members.{KeyvalMembers, ListedKeyMembers, entries_in};
ghost use Rattle.it_findings.specs.Members.{members_of};
ghost use Rattle.it_borrowed.specs.NamedMembers.{members_in};

use crate::member_finding::MemberFinding;
use crate::null_key::KeyList;
use crate::place::{KeyPlace, Place};
use crate::unread::unread_members;
use it_base::text::Text;
use it_borrowed::document::member;
use it_borrowed::named_members::named_members;
use it_borrowed::text::text_of;
use json::Value;
use std::alloc::{AllocError, Global};
use std::collections::BTreeMap;

/// What is found in the list of key objects that is the member of this name, in the order of the
/// ids.
pub(crate) fn key_list_members(
    alloc: Global,
    list: KeyList,
    value: &Value<'_>,
    name: &str,
) -> Result<Vec<MemberFinding>, AllocError>
    ensures { IfOk result (λ found. KeyListMembers list name.now (as_data value.now) found.items) }
{
    match member(value, name) {
        Some(keys) => members_in_keys(alloc, list, keys),
        None => Ok(Vec::new(alloc)),
    }
}

fn members_in_keys(
    alloc: Global,
    list: KeyList,
    keys: &Value<'_>,
) -> Result<Vec<MemberFinding>, AllocError>
    ensures { IfOk result (λ found.
        JoinedEach (ListedKeyMembers list) (members_of (as_data keys.now)) found.items) }
{
    match named_members(alloc, keys)? {
        Some(members) => each_key(alloc, list, members),
        None => Ok(Vec::new(alloc)),
    }
}

fn each_key(
    alloc: Global,
    list: KeyList,
    keys: BTreeMap<&str, &Value<'_>>,
) -> Result<Vec<MemberFinding>, AllocError>
    ensures { IfOk result (λ found. JoinedEach (ListedKeyMembers list)
        (entries_in (members_in keys.entry.entries)) found.items) }
{
    let mut found = Vec::new(alloc);
    for (id, object) in keys {
        let key = key_place(alloc, list, id)?;
        let mut here = key_members(alloc, &key, object)?;
        found.append(&mut here)?;
    }
    Ok(found)
}

/// The place under an id of a list.
pub(crate) fn key_place(alloc: Global, list: KeyList, id: &str) -> Result<KeyPlace, AllocError>
    ensures { IfOk result (λ key. key ≡ place_under list id.now) }
{
    let id = Text::copy(alloc, id)?;
    Ok(match list {
        KeyList::Owners => KeyPlace::Owner(id),
        KeyList::OfBuilder {
            expectation,
            builder,
        } => KeyPlace::Builder {
            expectation,
            builder,
            id,
        },
        KeyList::OfLayout => KeyPlace::Layout(id),
    })
}

/// What is found in the key object at a place.
fn key_members(
    alloc: Global,
    key: &KeyPlace,
    object: &Value<'_>,
) -> Result<Vec<MemberFinding>, AllocError>
    ensures { IfOk result (λ found. KeyMembers key.now (as_data object.now) found.items) }
{
    let place = Place::Key(key.copy(alloc)?);
    let mut found = unread_members(alloc, &place, object)?;
    let mut of_keyval = keyval_of(alloc, key, object)?;
    found.append(&mut of_keyval)?;
    Ok(found)
}

/// What is found in the `keyval` of a key object, where it has one.
fn keyval_of(
    alloc: Global,
    key: &KeyPlace,
    object: &Value<'_>,
) -> Result<Vec<MemberFinding>, AllocError>
    ensures { IfOk result (λ found.
        MatchOption (member_at (codes "keyval") (as_data object.now)) (found.items ≡ [])
        (λ keyval. KeyvalMembers key.now keyval found.items)) }
{
    match member(object, "keyval") {
        Some(keyval) => keyval_members(alloc, key, keyval),
        None => Ok(Vec::new(alloc)),
    }
}

fn keyval_members(
    alloc: Global,
    key: &KeyPlace,
    keyval: &Value<'_>,
) -> Result<Vec<MemberFinding>, AllocError>
    ensures { IfOk result (λ found. KeyvalMembers key.now (as_data keyval.now) found.items) }
{
    let place = Place::KeyValue(key.copy(alloc)?);
    let mut found = unread_members(alloc, &place, keyval)?;
    let mut of_private = private_key(alloc, key, keyval)?;
    found.append(&mut of_private)?;
    Ok(found)
}

fn private_key(
    alloc: Global,
    key: &KeyPlace,
    keyval: &Value<'_>,
) -> Result<Vec<MemberFinding>, AllocError>
    ensures { IfOk result (λ found. Said (HasPrivate (as_data keyval.now))
        (MemberFinding.PrivateKey key.now) found.items) }
{
    if !has_private(keyval) {
        return Ok(Vec::new(alloc));
    }
    one_private(alloc, key)
}

fn one_private(alloc: Global, key: &KeyPlace) -> Result<Vec<MemberFinding>, AllocError>
    ensures { IfOk result (λ found. found.items ≡ MemberFinding.PrivateKey key.now ∷ []) }
{
    let key = key.copy(alloc)?;
    let mut found = Vec::new(alloc);
    found.push(MemberFinding::PrivateKey(key))?;
    Ok(found)
}

/// Whether the `private` of a `keyval` is a text that is not empty.
fn has_private(keyval: &Value<'_>) -> bool
    ensures { IsTrue result ↔ HasPrivate (as_data keyval.now) }
{
    match text_at(keyval, "private") {
        Some(text) => !text.is_empty(),
        None => false,
    }
}

/// The text of the member of this name, if it is a text.
fn text_at<'t>(value: &Value<'t>, name: &str) -> Option<&'t str>
    ensures { option_map (λ text. text.now) result
        ≡ option_and_then as_str (member_at name.now (as_data value.now)) }
{
    text_of(member(value, name)?)
}
