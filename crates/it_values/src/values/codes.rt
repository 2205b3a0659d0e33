//! The bytes that are signed, and the codes of a signature.
use it_dsse::{hmac_sha256, hmac_sha256_parts, pae};
use it_tables::RowFault;
use it_tables::row::{bytes_in, list_in, number_in, text_in};
use serde_json::Value;
use std::alloc::Global;

/// What a call on codes answers.
pub(crate) fn answer(alloc: Global, call: &str, row: &Value) -> Result<String, RowFault> {
    match call {
        "encoding" => encoding(alloc, row),
        "hmac" => hmac(alloc, row),
        "hmac of parts" => hmac_of_parts(alloc, row),
        _ => Err(RowFault::UnknownCall),
    }
}

/// The pre-authentication encoding of a type and a body.
fn encoding(alloc: Global, row: &Value) -> Result<String, RowFault> {
    let body = text_in(row, "body")?.as_bytes();
    let bytes = pae(alloc, text_in(row, "type")?, body)?;
    Ok(String::from_utf8_lossy(alloc, bytes.as_slice())?)
}

/// The first bytes of the code of a message, as many as the row says.
fn hmac(alloc: Global, row: &Value) -> Result<String, RowFault> {
    let key = bytes_in(alloc, row, "key")?;
    let message = bytes_in(alloc, row, "message")?;
    let code = hmac_sha256(key.as_slice(), message.as_slice());
    let length = number_in(row, "length")?;
    let front = code.as_slice().get(..length as usize);
    Ok(hex::encode(alloc, front.ok_or(RowFault::BadMember("length"))?)?)
}

/// The code of a message in parts.
fn hmac_of_parts(alloc: Global, row: &Value) -> Result<String, RowFault> {
    let key = bytes_in(alloc, row, "key")?;
    let parts = parts_in(alloc, row, "message")?;
    let code = hmac_sha256_parts(key.as_slice(), parts.as_slice());
    Ok(hex::encode(alloc, code.as_slice())?)
}

/// The bytes of each text of a list.
///
/// # Errors
///
/// `BadMember` where the member of this name is no list of texts; `OutOfMemory` where memory was
/// refused.
pub(crate) fn parts_in<'r>(
    alloc: Global,
    row: &'r Value,
    name: &'static str,
) -> Result<Vec<&'r [u8]>, RowFault> {
    let mut parts = Vec::new(alloc);
    for item in list_in(row, name)? {
        let text = item.as_str().ok_or(RowFault::BadMember(name))?;
        parts.push(text.as_bytes())?;
    }
    Ok(parts)
}
