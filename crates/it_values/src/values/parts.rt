//! The parts of a document: texts, lists of texts, and bytes in base64 or hexadecimal.
use crate::values::told::{digits_or_none, text_or_none};
use it_base::base64_text::{base64_part, base64_text_of};
use it_base::hexadecimal_text::hexadecimal_part;
use it_base::parts::{part, part_or};
use it_base::sequence::Sequence;
use it_base::text::Text;
use it_tables::RowFault;
use it_tables::row::{bytes_in, member_in, text_in};
use serde_json::Value;
use std::alloc::{AllocError, Global};

/// What a call on a part of a document answers.
pub(crate) fn answer(alloc: Global, call: &str, row: &Value) -> Result<String, RowFault> {
    match call {
        "text" => text(alloc, row),
        "texts" => texts(alloc, row),
        "text or" => text_or(alloc, row),
        "from base64" => from_base64(alloc, row),
        "to base64" => to_base64(alloc, row),
        "from hexadecimal" => from_hexadecimal(alloc, row),
        _ => Err(RowFault::UnknownCall),
    }
}

fn text(alloc: Global, row: &Value) -> Result<String, RowFault> {
    let document = member_in(row, "document")?;
    let found = part::<Text>(alloc, document, text_in(row, "name")?)?;
    text_or_none(alloc, found.as_ref().map(Text::as_str))
}

fn texts(alloc: Global, row: &Value) -> Result<String, RowFault> {
    let document = member_in(row, "document")?;
    match part::<Sequence<Text>>(alloc, document, text_in(row, "name")?)? {
        Some(texts) => Ok(texts_told(alloc, texts.as_slice())?),
        None => text_or_none(alloc, None),
    }
}

/// The texts, each followed by a semicolon.
pub(crate) fn texts_told(alloc: Global, texts: &[Text]) -> Result<String, AllocError> {
    let mut all = String::new(alloc);
    for text in texts {
        write!(all, "{};", text.as_str())?;
    }
    Ok(all)
}

/// The text of a part, or another if it is missing.
fn text_or(alloc: Global, row: &Value) -> Result<String, RowFault> {
    let document = member_in(row, "document")?;
    let other = Text::copy(alloc, text_in(row, "or")?)?;
    let found = part_or(alloc, document, text_in(row, "name")?, other)?;
    text_or_none(alloc, found.as_ref().map(Text::as_str))
}

fn from_base64(alloc: Global, row: &Value) -> Result<String, RowFault> {
    let document = member_in(row, "document")?;
    let found = base64_part(alloc, document, text_in(row, "name")?)?;
    digits_or_none(alloc, found.as_ref().map(Sequence::as_slice))
}

fn to_base64(alloc: Global, row: &Value) -> Result<String, RowFault> {
    let bytes = bytes_in(alloc, row, "bytes")?;
    Ok(base64_text_of(alloc, bytes.as_slice())?)
}

fn from_hexadecimal(alloc: Global, row: &Value) -> Result<String, RowFault> {
    let document = member_in(row, "document")?;
    let found = hexadecimal_part(alloc, document, text_in(row, "name")?)?;
    digits_or_none(alloc, found.as_ref().map(Sequence::as_slice))
}
