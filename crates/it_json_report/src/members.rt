//! A member that follows others in an object (RFC 8259, section 4).
ghost use Rattle.std.specs.Prelude.{◌≡◌, ◌++◌, OnOk, codes, decimal};
ghost use Rattle.it_json_report.specs.Json.{json_list, json_text, member};

use crate::lists::{JsonItem, push_list};
use crate::texts::push_shown;
use std::alloc::{AllocError, Global};

pub(super) fn push_text_member(
    json: &mut Vec<u8>,
    name: &str,
    value: &str,
) -> Result<(), AllocError>
    ensures { OnOk result (json.new.items
        ≡ json.old.items ++ (codes "," ++ member (name.now, json_text value.now))) }
{
    push_shown_member(json, name, value.as_bytes())
}

/// Appends a member whose value is the text of these bytes.
pub(super) fn push_shown_member(
    json: &mut Vec<u8>,
    name: &str,
    bytes: &[u8],
) -> Result<(), AllocError>
    ensures { OnOk result (json.new.items
        ≡ json.old.items ++ (codes "," ++ member (name.now, json_text bytes.now))) }
{
    push_member_name(json, name)?;
    push_shown(json, bytes)
}

/// Appends a member whose value is a list.
pub(super) fn push_list_member<T: JsonItem>(
    alloc: Global,
    json: &mut Vec<u8>,
    name: &str,
    items: &[T],
) -> Result<(), AllocError>
    ensures { OnOk result (json.new.items
        ≡ json.old.items ++ (codes "," ++ member (name.now, json_list T.form items.now))) }
{
    push_member_name(json, name)?;
    push_list(alloc, json, items)
}

pub(super) fn push_number_member(
    alloc: Global,
    json: &mut Vec<u8>,
    name: &str,
    value: u64,
) -> Result<(), AllocError>
    ensures { OnOk result (json.new.items
        ≡ json.old.items ++ (codes "," ++ member (name.now, decimal value))) }
{
    let digits = format!(in alloc; "{value}")?;
    push_member_name(json, name)?;
    json.extend_from_slice(digits.as_bytes())
}

pub(super) fn push_member_name(json: &mut Vec<u8>, name: &str) -> Result<(), AllocError>
    ensures { OnOk result (json.new.items
        ≡ json.old.items ++ (codes "," ++ member (name.now, codes ""))) }
{
    json.extend_from_slice(b",\"")?;
    json.extend_from_slice(name.as_bytes())?;
    json.extend_from_slice(b"\":")
}
