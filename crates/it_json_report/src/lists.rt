//! Lists in JSON (RFC 8259, section 5), and the items of those in a report.
ghost use Rattle.std.specs.Prelude.{◌≡◌, ◌++◌, ℕ, List, OnOk, decimal};
ghost use Rattle.it_json_report.specs.Json.{further, json_list, json_text, member, parted};
ghost use Rattle.it_json_report.specs.JsonReport.{step_object, sublayout_object};

use crate::members::{push_number_member, push_text_member};
use crate::texts::push_text;
use it_base::sequence::Sequence;
use it_base::text::Text;
use std::alloc::{AllocError, Global};

/// A value that has a form in JSON.
pub(crate) trait JsonItem {
    // the form of the value in JSON
    ghost form: { Self → List ℕ };

    /// Appends the form.
    fn push_item(&self, alloc: Global, json: &mut Vec<u8>) -> Result<(), AllocError>
        ensures { OnOk result (json.new.items ≡ json.old.items ++ form self.now) };
}

impl JsonItem for Text {
    ghost form = { json_text };

    /// A name or a path, as a text.
    fn push_item(&self, _alloc: Global, json: &mut Vec<u8>) -> Result<(), AllocError> {
        push_text(json, self.as_str())
    }
}

impl JsonItem for u64 {
    ghost form = { decimal };

    /// A number.
    fn push_item(&self, alloc: Global, json: &mut Vec<u8>) -> Result<(), AllocError> {
        let number = *self;
        let digits = format!(in alloc; "{number}")?;
        json.extend_from_slice(digits.as_bytes())
    }
}

impl JsonItem for (Text, u64) {
    ghost form = { step_object };

    /// A step that held, and how many different keys signed for it.
    fn push_item(&self, alloc: Global, json: &mut Vec<u8>) -> Result<(), AllocError> {
        json.extend_from_slice(b"{\"name\":")?;
        push_text(json, self.0.as_str())?;
        push_number_member(alloc, json, "keys", self.1)?;
        json.push(b'}')?;
        Ok(())
    }
}

impl JsonItem for (Text, Sequence<u8>) {
    ghost form = { member };

    /// A member, by its name and the JSON of its value.
    fn push_item(&self, _alloc: Global, json: &mut Vec<u8>) -> Result<(), AllocError> {
        json.push(b'"')?;
        json.extend_from_slice(self.0.as_str().as_bytes())?;
        json.extend_from_slice(b"\":")?;
        json.extend_from_slice(self.1.as_slice())
    }
}

impl JsonItem for (Text, Text) {
    ghost form = { sublayout_object };

    /// A sublayout by its step and key id.
    fn push_item(&self, _alloc: Global, json: &mut Vec<u8>) -> Result<(), AllocError> {
        json.extend_from_slice(b"{\"step\":")?;
        push_text(json, self.0.as_str())?;
        push_text_member(json, "key", self.1.as_str())?;
        json.push(b'}')?;
        Ok(())
    }
}

/// Appends a list of the forms of its items.
pub(super) fn push_list<T: JsonItem>(
    alloc: Global,
    json: &mut Vec<u8>,
    items: &[T],
) -> Result<(), AllocError>
    ensures { OnOk result (json.new.items ≡ json.old.items ++ json_list T.form items.now) }
{
    json.push(b'[')?;
    push_parted(alloc, json, items)?;
    json.push(b']')?;
    Ok(())
}

/// Appends the forms of the items, separated by commas.
pub(super) fn push_parted<T: JsonItem>(
    alloc: Global,
    json: &mut Vec<u8>,
    items: &[T],
) -> Result<(), AllocError>
    ensures { OnOk result (json.new.items ≡ json.old.items ++ parted T.form items.now) }
{
    let Some((first, rest)) = items.split_first() else {
        return Ok(());
    };
    first.push_item(alloc, json)?;
    push_further_items(alloc, json, rest)
}

fn push_further_items<T: JsonItem>(
    alloc: Global,
    json: &mut Vec<u8>,
    items: &[T],
) -> Result<(), AllocError>
    ensures { OnOk result (json.new.items
        ≡ json.old.items ++ further T.form items.now) }
{
    for item in items {
        json.push(b',')?;
        item.push_item(alloc, json)?;
    }
    Ok(())
}
