//! Places of a policy and a layout, in lines for people.
ghost use Rattle.std.specs.Prelude.{◌≡◌, ◌++◌, OnOk};
ghost use Rattle.it_member_notes.specs.PlaceWords.{builder_form, id_form, key_form, number_form};
ghost use Rattle.it_member_notes.specs.PlaceWords.{place_form};

use crate::quoted::{push_text, push_told};
use it_findings::place::{KeyPlace, Place};
use std::alloc::{AllocError, Global};

/// Appends the place: the document, and the path to the object.
pub(crate) fn push_place(alloc: Global, out: &mut Vec<u8>, place: &Place) -> Result<(), AllocError>
    ensures { OnOk result (out.new.items ≡ out.old.items ++ place_form place.now) }
{
    match place {
        Place::Policy => push_text(out, "policy: the document"),
        Place::Expectation(number) => push_item(alloc, out, "policy: expectations", *number),
        Place::Builder {
            expectation,
            builder,
        } => push_builder(alloc, out, *expectation, *builder),
        Place::Layout => push_text(out, "layout: the document"),
        Place::Step(number) => push_item(alloc, out, "layout: steps", *number),
        Place::Inspection(number) => push_item(alloc, out, "layout: inspect", *number),
        Place::Key(key) => push_key(alloc, out, key),
        Place::KeyValue(key) => {
            push_key(alloc, out, key)?;
            push_text(out, ".keyval")
        }
    }
}

fn push_item(alloc: Global, out: &mut Vec<u8>, list: &str, number: usize) -> Result<(), AllocError>
    ensures { OnOk result (out.new.items ≡ out.old.items ++ number_form list.now number) }
{
    let words = format!(in alloc; "{list}[{number}]")?;
    push_text(out, words.as_str())
}

fn push_builder(
    alloc: Global,
    out: &mut Vec<u8>,
    expectation: usize,
    builder: usize,
) -> Result<(), AllocError>
    ensures { OnOk result (out.new.items ≡ out.old.items ++ builder_form expectation builder) }
{
    push_item(alloc, out, "policy: expectations", expectation)?;
    push_item(alloc, out, ".builders", builder)
}

/// Appends the place of a key object.
pub(crate) fn push_key(alloc: Global, out: &mut Vec<u8>, key: &KeyPlace) -> Result<(), AllocError>
    ensures { OnOk result (out.new.items ≡ out.old.items ++ key_form key.now) }
{
    match key {
        KeyPlace::Owner(id) => push_id(out, "policy: owners", id.as_str()),
        KeyPlace::Builder {
            expectation,
            builder,
            id,
        } => {
            push_builder(alloc, out, *expectation, *builder)?;
            push_id(out, ".keys", id.as_str())
        }
        KeyPlace::Layout(id) => push_id(out, "layout: keys", id.as_str()),
    }
}

fn push_id(out: &mut Vec<u8>, list: &str, id: &str) -> Result<(), AllocError>
    ensures { OnOk result (out.new.items ≡ out.old.items ++ id_form list.now id.now) }
{
    push_text(out, list)?;
    push_told(out, "[", id, "]")
}
