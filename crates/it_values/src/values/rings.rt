//! Rings of secrets: how they are read, and what they say about keys and signatures.
use crate::values::codes::parts_in;
use crate::values::signing_ring::{RING, object_of, ring_of};
use crate::values::told::joined;
use it_dsse::check::SignatureCheck;
use it_dsse::meter::Meter;
use it_dsse::ring::HmacRing;
use it_tables::RowFault;
use it_tables::row::{bytes_in, number_in, text_in};
use serde_json::Value;
use std::alloc::{AllocError, Global};

/// What a call on rings answers.
pub(crate) fn answer(alloc: Global, call: &str, row: &Value) -> Result<String, RowFault> {
    match call {
        "ids" => ids(alloc, text_in(row, "ring")?),
        "large" => large(alloc, row),
        "key" => key(alloc, row),
        "signature" => signature(alloc, row),
        _ => Err(RowFault::UnknownCall),
    }
}

/// The ids of the ring in a text.
fn ids(alloc: Global, text: &str) -> Result<String, RowFault> {
    match ring_of(alloc, text) {
        Ok(ring) => joined(alloc, ring.ids(alloc)?.as_slice()),
        Err(fault) => Ok(format!(in alloc; "{fault:?}")?),
    }
}

/// The ring that rows sign with, in which each secret is its id, except that of `bobz`.
///
/// # Errors
///
/// `OutOfMemory` where memory was refused.
pub(crate) fn known_ring(alloc: Global) -> Result<HmacRing, RowFault> {
    ring_of(alloc, RING).ok().ok_or(RowFault::OutOfMemory)
}

/// The number of the key of an id in a ring, under a scheme.
fn key_of(
    alloc: Global,
    ring: &HmacRing,
    id: &str,
    scheme: &str,
) -> Result<Option<u32>, AllocError> {
    let object = object_of(alloc, scheme)?;
    Ok(ring.key(id, &object))
}

fn key(alloc: Global, row: &Value) -> Result<String, RowFault> {
    let ring = known_ring(alloc)?;
    let found = key_of(alloc, &ring, text_in(row, "id")?, text_in(row, "scheme")?)?;
    Ok(format!(in alloc; "{found:?}")?)
}

/// The text of a ring with this many entries, whose ids are numbers and whose secrets are empty.
fn ring_text(alloc: Global, entries: u64) -> Result<String, AllocError> {
    let mut text = String::from_str(alloc, "[")?;
    for n in 0..entries {
        let comma = if n > 0 { "," } else { "" };
        write!(text, "{comma}{{\"id\":\"{n}\",\"secret\":\"\"}}")?;
    }
    text.push(']')?;
    Ok(text)
}

/// How many ids a ring with this many entries has, and the number of the key of one of them.
fn large(alloc: Global, row: &Value) -> Result<String, RowFault> {
    let text = ring_text(alloc, number_in(row, "entries")?)?;
    match ring_of(alloc, text.as_str()) {
        Ok(ring) => Ok(size_told(alloc, &ring, text_in(row, "id")?)?),
        Err(fault) => Ok(format!(in alloc; "{fault:?}")?),
    }
}

fn size_told(alloc: Global, ring: &HmacRing, id: &str) -> Result<String, AllocError> {
    let count = ring.ids(alloc)?.len();
    let key = key_of(alloc, ring, id, "hmac-sha256")?;
    format!(in alloc; "{count} ids, {key:?}")
}

/// Whether bytes are a signature of a message by a key, and how many checks were then asked for.
fn signature(alloc: Global, row: &Value) -> Result<String, RowFault> {
    let ring = known_ring(alloc)?;
    let message = parts_in(alloc, row, "message")?;
    let sig = bytes_in(alloc, row, "sig")?;
    let mut meter = Meter {
        asked: number_in(row, "asked")?,
    };
    let key = u32::try_from(number_in(row, "key")?)
        .ok()
        .ok_or(RowFault::BadMember("key"))?;
    let valid = ring.valid(key, message.as_slice(), sig.as_slice(), &mut meter);
    Ok(format!(in alloc; "{valid}, {} asked", meter.asked)?)
}
