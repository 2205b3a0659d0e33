//! Who signed an envelope, as a panel of rings finds it.
use crate::values::signing_ring::{RING, object_of, ring_of};
use crate::values::told::joined;
use it_base::sequence::Sequence;
use it_base::text::Text;
use it_dsse::check::SignatureCheck;
use it_dsse::envelope::{Envelope, Signature};
use it_dsse::meter::Meter;
use it_dsse::ring::HmacRing;
use it_dsse::{hmac_sha256, pae, signed_by, signed_ids};
use it_tables::RowFault;
use it_tables::row::{list_in, text_in, texts_in};
use serde_json::Value;
use std::alloc::{AllocError, Global};

/// A ring of carol, and of an alice with bob's secret.
const CAROL_AND_ANOTHER_ALICE: &str =
    r#"[{"id":"carol","secret":"6361726f6c"},{"id":"alice","secret":"626f62"}]"#;

/// What a call on who signed an envelope answers, with a panel of the rings that the row names.
pub(crate) fn answer(alloc: Global, call: &str, row: &Value) -> Result<String, RowFault> {
    let mut panel: Vec<Box<dyn SignatureCheck>> = Vec::new(alloc);
    for name in list_in(row, "panel")? {
        panel.push(Box::new(alloc, ring_named(alloc, name)?)?)?;
    }
    match call {
        "key" => key(alloc, row, panel.as_slice()),
        "ids" => ids(alloc, row, panel.as_slice()),
        _ => Err(RowFault::UnknownCall),
    }
}

/// The ring of this name.
fn ring_named(alloc: Global, name: &Value) -> Result<HmacRing, RowFault> {
    let text = match name.as_str() {
        Some("all") => RING,
        Some("carol and another alice") => CAROL_AND_ANOTHER_ALICE,
        _ => return Err(RowFault::BadMember("panel")),
    };
    ring_of(alloc, text).ok().ok_or(RowFault::OutOfMemory)
}

/// The code of the body under a secret.
fn code(alloc: Global, secret: &[u8]) -> Result<[u8; 32], AllocError> {
    let message = pae(alloc, "t", b"body")?;
    Ok(hmac_sha256(secret, message.as_slice()))
}

/// The signature by a secret under a hint.
fn signature(alloc: Global, secret: &str, hint: &str) -> Result<Signature, AllocError> {
    let code = code(alloc, secret.as_bytes())?;
    let sig = Vec::from_slice(alloc, code.as_slice())?;
    Ok(Signature {
        keyid: Text::copy(alloc, hint)?,
        sig: Sequence::from(sig),
    })
}

/// The signatures that a row lists, each by its secret and its hint.
fn signatures_in(alloc: Global, row: &Value) -> Result<Sequence<Signature>, RowFault> {
    let mut signatures = Vec::new(alloc);
    for signer in list_in(row, "signatures")? {
        let hint = text_in(signer, "hint")?;
        signatures.push(signature(alloc, text_in(signer, "secret")?, hint)?)?;
    }
    Ok(Sequence::from(signatures))
}

/// An envelope with the signatures that a row lists.
fn envelope_in(alloc: Global, row: &Value) -> Result<Envelope, RowFault> {
    let signatures = signatures_in(alloc, row)?;
    Ok(Envelope {
        payload: Sequence::from(Vec::from_slice(alloc, b"body")?),
        payload_type: Text::copy(alloc, "t")?,
        signatures,
    })
}

/// Which key of a panel signed for an id, and how many signatures were tried.
fn key(alloc: Global, row: &Value, panel: &[Box<dyn SignatureCheck>]) -> Result<String, RowFault> {
    let envelope = envelope_in(alloc, row)?;
    let object = object_of(alloc, "hmac-sha256")?;
    let mut meter = Meter { asked: 0 };
    let found = signed_by(&envelope, text_in(row, "id")?, &object, panel, &mut meter);
    Ok(format!(in alloc; "{found:?}, {} tried", meter.asked)?)
}

/// Which of some ids signed.
fn ids(alloc: Global, row: &Value, panel: &[Box<dyn SignatureCheck>]) -> Result<String, RowFault> {
    let envelope = envelope_in(alloc, row)?;
    let object = object_of(alloc, "hmac-sha256")?;
    let asked = texts_in(alloc, row, "ids")?;
    let found = signed_ids(alloc, &envelope, asked.as_slice(), &object, panel)?;
    joined(alloc, found.as_slice())
}
