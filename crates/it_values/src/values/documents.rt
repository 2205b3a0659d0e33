//! JSON documents, and the moments and texts that they hold.
use crate::values::told::text_or_none;
use it_base::document::{member, read_document};
use it_base::text::Text;
use it_borrowed::parts::from_bytes;
use it_docs::moment::read_moment;
use it_tables::RowFault;
use it_tables::devices::nested;
use it_tables::row::{bytes_in, member_in, number_in, text_in};
use serde_json::Value;
use std::alloc::Global;

/// What a call on documents answers.
pub(crate) fn answer(alloc: Global, call: &str, row: &Value) -> Result<String, RowFault> {
    match call {
        "read" => read(alloc, row),
        "nested" => read_nested(alloc, row),
        "member" => member_of(alloc, row),
        "text" => text(alloc, row),
        "moment" => moment(alloc, row),
        _ => Err(RowFault::UnknownCall),
    }
}

/// The document as a text without spaces, or `none`.
fn value_text(alloc: Global, value: Option<&Value>) -> Result<String, RowFault> {
    match value {
        Some(value) => Ok(value.to_string(alloc)?),
        None => text_or_none(alloc, None),
    }
}

fn read(alloc: Global, row: &Value) -> Result<String, RowFault> {
    let bytes = bytes_in(alloc, row, "bytes")?;
    let document = read_document(alloc, bytes.as_slice())?;
    value_text(alloc, document.as_ref())
}

/// Whether this many lists, each inside the one before, are a document.
fn read_nested(alloc: Global, row: &Value) -> Result<String, RowFault> {
    let text = nested(alloc, number_in(row, "levels")? as usize)?;
    let document = read_document(alloc, text.as_bytes())?;
    Ok(document.is_some().to_string(alloc)?)
}

fn member_of(alloc: Global, row: &Value) -> Result<String, RowFault> {
    let document = member_in(row, "document")?;
    value_text(alloc, member(document, text_in(row, "name")?))
}

/// The text, if the whole document is one.
fn text(alloc: Global, row: &Value) -> Result<String, RowFault> {
    let bytes = bytes_in(alloc, row, "bytes")?;
    let found = from_bytes::<Text>(alloc, bytes.as_slice())?;
    text_or_none(alloc, found.as_ref().map(Text::as_str))
}

/// The seconds of a moment since the beginning of 1970.
fn moment(alloc: Global, row: &Value) -> Result<String, RowFault> {
    match read_moment(text_in(row, "text")?) {
        Ok(seconds) => Ok(seconds.to_string(alloc)?),
        Err(_) => text_or_none(alloc, None),
    }
}
