//! The members of a row.
ghost use Rattle.std.specs.Prelude.{◌≡◌, Some, IfOk};
ghost use Rattle.serde_json.specs.View.{view};
ghost use Rattle.it_base.specs.Document.{member_at};
ghost use Rattle.it_base.specs.Finds.{Finds};
ghost use Rattle.it_base.specs.Parts.{IsPart};
ghost use Rattle.it_base.specs.Text.{IsText};
ghost use Rattle.it_tables.specs.Part.{IsBytes, IsNumber};

use crate::row_fault::RowFault;
use it_base::document::member;
use it_base::hexadecimal_text::hexadecimal_part;
use it_base::sequence::Sequence;
use serde_json::Value;
use std::alloc::{AllocError, Global};

/// The member of this name.
///
/// # Errors
///
/// `BadMember` where there is none, or it is null.
pub fn member_in<'r>(row: &'r Value, name: &'static str) -> Result<&'r Value, RowFault>
    ensures { IfOk result (λ v. member_at name.now (view row.now) ≡ Some (view v.now)) }
{
    member(row, name).ok_or(RowFault::BadMember(name))
}

/// The text that the member of this name is.
///
/// # Errors
///
/// `BadMember` where there is none, or it is no text.
pub fn text_in<'r>(row: &'r Value, name: &'static str) -> Result<&'r str, RowFault>
    ensures { IfOk result (λ text. IsPart IsText name.now (view row.now) text.now) }
{
    member_in(row, name)?
        .as_str()
        .ok_or(RowFault::BadMember(name))
}

/// The whole number below 2^64 that the member of this name is.
///
/// # Errors
///
/// `BadMember` where there is none, or it is no such number.
pub fn number_in(row: &Value, name: &'static str) -> Result<u64, RowFault>
    ensures { IfOk result (IsPart IsNumber name.now (view row.now)) }
{
    member_in(row, name)?
        .as_u64()
        .ok_or(RowFault::BadMember(name))
}

/// The whole number below 2^64 that the member of this name is, or `None` where it is not one.
pub fn number_if(row: &Value, name: &str) -> Option<u64> {
    member(row, name)?.as_u64()
}

/// Whether the member of this name is there and true.
pub fn is_set(row: &Value, name: &str) -> bool {
    matches!(member(row, name), Some(Value::Bool(true)))
}

/// The bytes that the member of this name is.
///
/// # Errors
///
/// `BadMember` where there is none, or it gives no bytes; `OutOfMemory` where memory was refused.
pub fn bytes_part(alloc: Global, row: &Value, name: &'static str) -> Result<Sequence<u8>, RowFault>
    ensures { IfOk result (IsPart IsBytes name.now (view row.now)) }
{
    bytes_of(alloc, member_in(row, name)?)?.ok_or(RowFault::BadMember(name))
}

/// The bytes that a value is: those of a text, or those that the member `hex` of an object encodes.
/// `None` where it is neither.
pub fn bytes_of(alloc: Global, value: &Value) -> Result<Option<Sequence<u8>>, AllocError>
    ensures { IfOk result (Finds (IsBytes (view value.now))) }
{
    match value.as_str() {
        Some(text) => Ok(Some(Sequence::from(Vec::from_slice(alloc, text.as_bytes())?))),
        None => hexadecimal_part(alloc, value, "hex"),
    }
}

/// The same bytes, as a vector.
///
/// # Errors
///
/// Those of `bytes_part`.
pub fn bytes_in(alloc: Global, row: &Value, name: &'static str) -> Result<Vec<u8>, RowFault> {
    Ok(bytes_part(alloc, row, name)?.into_vec())
}

/// The items of the list that the member of this name is.
///
/// # Errors
///
/// `BadMember` where there is none, or it is no list.
pub fn list_in<'r>(row: &'r Value, name: &'static str) -> Result<&'r [Value], RowFault> {
    match member_in(row, name)?.as_array() {
        Some(items) => Ok(items.as_slice()),
        None => Err(RowFault::BadMember(name)),
    }
}

/// Copies of the texts that the items of the member of this name are.
///
/// # Errors
///
/// `BadMember` where there is none, or an item is no text; `OutOfMemory` where memory was refused.
pub fn texts_in(alloc: Global, row: &Value, name: &'static str) -> Result<Vec<String>, RowFault> {
    let mut texts = Vec::new(alloc);
    for item in list_in(row, name)? {
        let text = item.as_str().ok_or(RowFault::BadMember(name))?;
        texts.push(String::from_str(alloc, text)?)?;
    }
    Ok(texts)
}
