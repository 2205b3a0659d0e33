//! The places of a policy and a layout whose objects notes are on. Each object is looked at once
//! here, and is looked up by its place again only where a note is on it.
ghost use Rattle.std.specs.Prelude.{All, IfOk, OnOk};
ghost use Rattle.it_member_notes.specs.Places.{IsKeyOfLayout, IsKeyOfPolicy};
ghost use Rattle.it_member_notes.specs.Places.{IsOfLayout, IsOfPolicy};

use crate::key_notes::key_note_of;
use it_base::text::Text;
use it_borrowed::document::member;
use it_borrowed::items::items_of;
use it_borrowed::named_members::named_members;
use it_findings::have_meaning;
use it_findings::place::{KeyPlace, Place};
use json::Value;
use std::alloc::{AllocError, Global};

/// The places of a policy that notes are on: the whole, its owners, and its expectations with their
/// builders.
pub(crate) fn policy_places(alloc: Global, document: &Value<'_>) -> Result<Vec<Place>, AllocError>
    ensures { IfOk result (λ places. All IsOfPolicy places.items) }
{
    let mut places = Vec::new(alloc);
    push_noted(alloc, Place::Policy, document, &mut places)?;
    for (id, key) in keys_at(alloc, document, "owners")? {
        push_key(alloc, KeyPlace::Owner(id), key, &mut places)?;
    }
    push_expectations(alloc, document, &mut places)?;
    Ok(places)
}

/// The places of a layout that notes are on: the whole, its keys, its steps and its inspections.
pub(crate) fn layout_places(alloc: Global, document: &Value<'_>) -> Result<Vec<Place>, AllocError>
    ensures { IfOk result (λ places. All IsOfLayout places.items) }
{
    let mut places = Vec::new(alloc);
    push_noted(alloc, Place::Layout, document, &mut places)?;
    for (id, key) in keys_at(alloc, document, "keys")? {
        push_key(alloc, KeyPlace::Layout(id), key, &mut places)?;
    }
    push_steps(alloc, document, &mut places)?;
    push_inspections(alloc, document, &mut places)?;
    Ok(places)
}

fn push_steps(
    alloc: Global,
    document: &Value<'_>,
    places: &mut Vec<Place>,
) -> Result<(), AllocError>
    requires { All IsOfLayout places.old.items }
    ensures { OnOk result (All IsOfLayout places.new.items) }
{
    let Some(steps) = list_at(document, "steps") else {
        return Ok(());
    };
    for (step, object) in steps.iter().enumerate() {
        push_noted(alloc, Place::Step(step), object, places)?;
    }
    Ok(())
}

fn push_inspections(
    alloc: Global,
    document: &Value<'_>,
    places: &mut Vec<Place>,
) -> Result<(), AllocError>
    requires { All IsOfLayout places.old.items }
    ensures { OnOk result (All IsOfLayout places.new.items) }
{
    let Some(inspections) = list_at(document, "inspect") else {
        return Ok(());
    };
    for (inspection, object) in inspections.iter().enumerate() {
        push_noted(alloc, Place::Inspection(inspection), object, places)?;
    }
    Ok(())
}

fn push_expectations(
    alloc: Global,
    document: &Value<'_>,
    places: &mut Vec<Place>,
) -> Result<(), AllocError>
    requires { All IsOfPolicy places.old.items }
    ensures { OnOk result (All IsOfPolicy places.new.items) }
{
    let Some(expectations) = list_at(document, "expectations") else {
        return Ok(());
    };
    for (expectation, object) in expectations.iter().enumerate() {
        push_noted(alloc, Place::Expectation(expectation), object, places)?;
        push_builders(alloc, expectation, object, places)?;
    }
    Ok(())
}

fn push_builders(
    alloc: Global,
    expectation: usize,
    object: &Value<'_>,
    places: &mut Vec<Place>,
) -> Result<(), AllocError>
    requires { All IsOfPolicy places.old.items }
    ensures { OnOk result (All IsOfPolicy places.new.items) }
{
    let Some(builders) = list_at(object, "builders") else {
        return Ok(());
    };
    for (builder, object) in builders.iter().enumerate() {
        let place = Place::Builder {
            expectation,
            builder,
        };
        push_noted(alloc, place, object, places)?;
        push_builder_keys(alloc, expectation, builder, object, places)?;
    }
    Ok(())
}

fn push_builder_keys(
    alloc: Global,
    expectation: usize,
    builder: usize,
    object: &Value<'_>,
    places: &mut Vec<Place>,
) -> Result<(), AllocError>
    requires { All IsOfPolicy places.old.items }
    ensures { OnOk result (All IsOfPolicy places.new.items) }
{
    for (id, key) in keys_at(alloc, object, "keys")? {
        let place = KeyPlace::Builder {
            expectation,
            builder,
            id,
        };
        push_key(alloc, place, key, places)?;
    }
    Ok(())
}

/// Appends the places of a key object and of its `keyval`, where notes are on them.
fn push_key(
    alloc: Global,
    key: KeyPlace,
    object: &Value<'_>,
    places: &mut Vec<Place>,
) -> Result<(), AllocError>
    ensures policy { OnOk result (IsKeyOfPolicy key → All IsOfPolicy places.old.items
        → All IsOfPolicy places.new.items) }
    ensures layout { OnOk result (IsKeyOfLayout key → All IsOfLayout places.old.items
        → All IsOfLayout places.new.items) }
{
    push_noted(alloc, Place::Key(key.copy(alloc)?), object, places)?;
    if let Some(keyval) = member(object, "keyval") {
        push_noted(alloc, Place::KeyValue(key), keyval, places)?;
    }
    Ok(())
}

/// Appends the place of an object, where notes are on its members.
fn push_noted(
    alloc: Global,
    place: Place,
    object: &Value<'_>,
    places: &mut Vec<Place>,
) -> Result<(), AllocError>
    ensures policy { OnOk result (IsOfPolicy place → All IsOfPolicy places.old.items
        → All IsOfPolicy places.new.items) }
    ensures layout { OnOk result (IsOfLayout place → All IsOfLayout places.old.items
        → All IsOfLayout places.new.items) }
{
    if !have_meaning(&place, object) || key_note_of(alloc, object, &place)?.is_some() {
        places.push(place)?;
    }
    Ok(())
}

/// The items of the list that is the member of this name, or `None` if it is not a list.
fn list_at<'v, 't>(object: &'v Value<'t>, name: &str) -> Option<&'v Vec<Value<'t>>> {
    items_of(member(object, name)?)
}

/// The members of the object that is the member of this name, with their names: none if it is not
/// an object.
fn keys_at<'v, 't>(
    alloc: Global,
    object: &'v Value<'t>,
    name: &str,
) -> Result<Vec<(Text, &'v Value<'t>)>, AllocError> {
    let mut keys = Vec::new(alloc);
    let Some(value) = member(object, name) else {
        return Ok(keys);
    };
    let Some(members) = named_members(alloc, value)? else {
        return Ok(keys);
    };
    for (id, key) in members {
        keys.push((Text::copy(alloc, id)?, key))?;
    }
    Ok(keys)
}
