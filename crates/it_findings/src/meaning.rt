//! Whether the names of members have a meaning at a place.
ghost use Rattle.std.specs.Prelude.{◌≡◌, ◌↔◌, All, Any, Contains, IsTrue, map};
ghost use Rattle.it_findings.specs.MemberNames.{known_names as known_at, read_names as read_at};
ghost use Rattle.it_borrowed.specs.Tree.{as_data};
ghost use Rattle.it_findings.specs.Members.{HasMeaning, HaveMeaning};

use crate::member_names::{known_names, read_names};
use crate::place::Place;
use json::Value;

/// Whether members of this name are looked at in the objects at a place, or known there. Takes no
/// memory.
pub fn has_meaning(place: &Place, name: &str) -> bool
    ensures { IsTrue result ↔ HasMeaning place.now name.now }
{
    is_read(place, name) || is_known(place, name)
}

/// Whether all members of a value are looked at in the objects at a place, or known there. It may
/// also deny it for a member that does not count, since it comes again. Takes no memory.
pub fn have_meaning(place: &Place, value: &Value<'_>) -> bool
    ensures { IsTrue result → HaveMeaning place.now (as_data value.now) }
{
    match value {
        Value::Object(members) => all_have(place, members.as_slice()),
        Value::Null | Value::Bool(_) | Value::Number(_) | Value::String(_) | Value::Array(_) =>
            true,
    }
}

fn all_have(place: &Place, members: &[(&str, Value<'_>)]) -> bool
    ensures { IsTrue result → All (λ member. HasMeaning place.now member.0.now) members.now }
{
    for member in members {
        if !has_meaning(place, member.0) {
            return false;
        }
    }
    true
}

fn is_read(place: &Place, name: &str) -> bool
    ensures { IsTrue result ↔ Contains (read_at place.now) name.now }
{
    is_among(read_names(place), name)
}

fn is_known(place: &Place, name: &str) -> bool
    ensures { IsTrue result ↔ Contains (known_at place.now) name.now }
{
    is_among(known_names(place), name)
}

fn is_among(names: &[&str], name: &str) -> bool
    ensures { IsTrue result ↔ Contains (map (λ other. other.now) names.now) name.now }
{
    is_one_of(names, name)
}

fn is_one_of(names: &[&str], name: &str) -> bool
    ensures { IsTrue result ↔ Any (λ other. other.now ≡ name.now) names.now }
{
    names.iter().any(|other| *other == name)
}
