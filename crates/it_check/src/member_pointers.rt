//! Places of members in a policy and a layout, as JSON pointers (RFC 6901).
ghost use Rattle.std.specs.Prelude.{◌≡◌, ◌++◌, OnOk};
ghost use Rattle.it_check.specs.FindingPlace.{builder_pointer, keyval_pointer, member_pointer};
ghost use Rattle.it_check.specs.FindingPlace.{key_pointer, object_pointer};
ghost use Rattle.it_findings.specs.KeyPlaces.{id_of, list_of};

use crate::pointer_form::PointerForm;
use crate::pointers::{push_expectation, push_key, push_step};
use crate::repeated_pointer::push_repeated;
use crate::token::push_token;
use crate::writing::{push_number, push_text, push_told_number};
use it_base::text::Text;
use it_findings::member_finding::MemberFinding;
use it_findings::place::{KeyPlace, Place};
use it_repeats::repeated_member::RepeatedMember;
use std::alloc::AllocError;

/// Appends the place of a finding on a member.
#[tactic(auto, unfolding(crate::specs::FindingPlace::member_pointer))]
pub(crate) fn push_member(
    text: &mut Vec<u8>,
    form: PointerForm,
    finding: &MemberFinding,
) -> Result<(), AllocError>
    ensures { OnOk result (text.new.items ≡ text.old.items ++ member_pointer form finding.now) }
{
    match finding {
        MemberFinding::Repeated { member, .. } => push_repeated(text, form, member),
        MemberFinding::Unread { place, name } => push_named(text, form, place, name),
        MemberFinding::PrivateKey(key) => push_private(text, form, key),
    }
}

/// Appends the place of the member of this name in the object at a place.
#[tactic(auto, unfolding(crate::specs::FindingPlace::member_pointer))]
fn push_named(
    text: &mut Vec<u8>,
    form: PointerForm,
    place: &Place,
    name: &Text,
) -> Result<(), AllocError>
    ensures { OnOk result (text.new.items
        ≡ text.old.items ++ member_pointer form (MemberFinding.Unread place.now name.now)) }
{
    push_object(text, form, place)?;
    push_text(text, "/")?;
    push_token(text, form, name.as_str())
}

#[tactic(auto, unfolding(crate::specs::FindingPlace::member_pointer))]
fn push_private(text: &mut Vec<u8>, form: PointerForm, key: &KeyPlace) -> Result<(), AllocError>
    ensures { OnOk result (text.new.items
        ≡ text.old.items ++ member_pointer form (MemberFinding.PrivateKey key.now)) }
{
    push_keyval(text, form, key)?;
    push_text(text, "/private")
}

/// Appends the place of an object.
fn push_object(text: &mut Vec<u8>, form: PointerForm, place: &Place) -> Result<(), AllocError>
    ensures { OnOk result (text.new.items ≡ text.old.items ++ object_pointer form place.now) }
{
    match place {
        Place::Policy | Place::Layout => Ok(()),
        Place::Expectation(number) => push_expectation(text, *number, ""),
        Place::Builder {
            expectation,
            builder,
        } => push_builder(text, *expectation, *builder),
        Place::Step(number) => push_step(text, *number, ""),
        Place::Inspection(number) => push_told_number(text, "/inspect/", *number, ""),
        Place::Key(key) => push_key_at(text, form, key),
        Place::KeyValue(key) => push_keyval(text, form, key),
    }
}

#[tactic(auto, unfolding(crate::specs::FindingPlace::builder_pointer))]
fn push_builder(text: &mut Vec<u8>, expectation: usize, builder: usize) -> Result<(), AllocError>
    ensures { OnOk result
        (text.new.items ≡ text.old.items ++ builder_pointer expectation builder) }
{
    push_told_number(text, "/expectations/", expectation, "/builders/")?;
    push_number(text, builder)
}

/// Appends the place of the `keyval` of a key object.
#[tactic(auto, unfolding(crate::specs::FindingPlace::keyval_pointer))]
fn push_keyval(text: &mut Vec<u8>, form: PointerForm, key: &KeyPlace) -> Result<(), AllocError>
    ensures { OnOk result (text.new.items ≡ text.old.items ++ keyval_pointer form key.now) }
{
    push_key_at(text, form, key)?;
    push_text(text, "/keyval")
}

/// Appends the place of a key object.
pub(crate) fn push_key_at(
    text: &mut Vec<u8>,
    form: PointerForm,
    key: &KeyPlace,
) -> Result<(), AllocError>
    ensures { OnOk result (text.new.items
        ≡ text.old.items ++ key_pointer form (list_of key.now) (id_of key.now)) }
{
    push_key(text, form, key.list(), key.id())
}
