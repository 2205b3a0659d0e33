//! How envelopes are read, signed and written.
use crate::values::rings::known_ring;
use crate::values::told::text_or_none;
use crate::values::writing::full_in;
use it_borrowed::parts::from_bytes;
use it_dsse::envelope::{Envelope, Signature};
use it_dsse::key_object::KeyObject;
use it_dsse::signing::sign;
use it_dsse::written::WriteFault;
use it_tables::RowFault;
use it_tables::devices::{Full, Pipe};
use it_tables::row::text_in;
use serde_json::Value;
use std::alloc::{AllocError, Global};

/// What a call on envelopes answers.
pub(crate) fn answer(alloc: Global, call: &str, row: &Value) -> Result<String, RowFault> {
    match call {
        "read" => read(alloc, row),
        "write" => written(alloc, &envelope_in(alloc, row)?),
        "sign" => signed(alloc, row),
        "stop" => stop(alloc, row),
        "key" => key(alloc, row),
        _ => Err(RowFault::UnknownCall),
    }
}

fn read(alloc: Global, row: &Value) -> Result<String, RowFault> {
    match Envelope::read(alloc, text_in(row, "text")?.as_bytes()) {
        Ok(envelope) => Ok(told(alloc, &envelope)?),
        Err(fault) => Ok(format!(in alloc; "{fault:?}")?),
    }
}

/// The payload of an envelope in hexadecimal digits, its type, and its signatures.
fn told(alloc: Global, envelope: &Envelope) -> Result<String, AllocError> {
    let payload = hex::encode(alloc, envelope.payload.as_slice())?;
    let signatures = signatures_told(alloc, envelope.signatures.as_slice())?;
    let kind = envelope.payload_type.as_str();
    format!(in alloc; "{payload} as {kind} by {signatures}")
}

/// The key id of each signature, with its bytes in hexadecimal digits.
fn signatures_told(alloc: Global, signatures: &[Signature]) -> Result<String, AllocError> {
    let mut text = String::new(alloc);
    for signature in signatures {
        let digits = hex::encode(alloc, signature.sig.as_slice())?;
        write!(text, "{}={digits};", signature.keyid.as_str())?;
    }
    Ok(text)
}

/// The envelope in the text of a row.
fn envelope_in(alloc: Global, row: &Value) -> Result<Envelope, RowFault> {
    let text = text_in(row, "text")?;
    let envelope = Envelope::read(alloc, text.as_bytes());
    envelope.ok().ok_or(RowFault::BadMember("text"))
}

fn written(alloc: Global, envelope: &Envelope) -> Result<String, RowFault> {
    let mut out = Vec::new(alloc);
    match envelope.write(alloc, &mut out) {
        Ok(()) => Ok(String::from_utf8_lossy(alloc, out.as_slice())?),
        Err(fault) => Ok(format!(in alloc; "{fault:?}")?),
    }
}

/// The envelope of a body that a secret of the ring signed, as it is written.
fn signed(alloc: Global, row: &Value) -> Result<String, RowFault> {
    let ring = known_ring(alloc)?;
    let body = text_in(row, "body")?.as_bytes();
    match sign(
        alloc,
        &ring,
        text_in(row, "id")?,
        text_in(row, "type")?,
        body,
    ) {
        Ok(envelope) => written(alloc, &envelope),
        Err(fault) => Ok(format!(in alloc; "{fault:?}")?),
    }
}

/// Says that writing an envelope stops at each byte for which there is no room, or names the first
/// where it does not.
fn stop(alloc: Global, row: &Value) -> Result<String, RowFault> {
    let text = text_in(row, "text")?.as_bytes();
    let envelope = envelope_in(alloc, row)?;
    let full = full_in(row)?;
    for room in 0..text.len() {
        if !stops_after(alloc, &envelope, full, &text[..room]) {
            return Ok(format!(in alloc; "goes on at {room}")?);
        }
    }
    Ok(format!(in alloc; "stops at each of {}", text.len())?)
}

/// Whether writing an envelope to a pipe with room for this front of its text fails after writing
/// the front.
fn stops_after(alloc: Global, envelope: &Envelope, full: Full, front: &[u8]) -> bool {
    let mut pipe = Pipe {
        taken: Vec::new(alloc),
        room: front.len(),
        most: 1,
        full,
    };
    let answer = envelope.write(alloc, &mut pipe);
    answer == Err(WriteFault::Write) && pipe.taken.as_slice() == front
}

/// The key object in the text of a row.
fn key(alloc: Global, row: &Value) -> Result<String, RowFault> {
    match from_bytes::<KeyObject>(alloc, text_in(row, "text")?.as_bytes())? {
        Some(object) => Ok(object_told(alloc, &object)?),
        None => text_or_none(alloc, None),
    }
}

/// The key type, the scheme and the public part of a key object, and what it has of an identity.
///
/// # Errors
///
/// Memory was refused.
pub(crate) fn object_told(alloc: Global, object: &KeyObject) -> Result<String, AllocError> {
    let keytype = object.keytype.as_str();
    let scheme = object.scheme.as_str();
    let public = object.public.as_str();
    let mut text = format!(in alloc; "{keytype}/{scheme}/{public}")?;
    push_filled(&mut text, " of ", object.identity.as_str())?;
    push_filled(&mut text, " by ", object.issuer.as_str())?;
    Ok(text)
}

/// Appends a word and a text, unless the text is empty.
fn push_filled(told: &mut String, word: &str, text: &str) -> Result<(), AllocError> {
    if !text.is_empty() {
        write!(told, "{word}{text}")?;
    }
    Ok(())
}
