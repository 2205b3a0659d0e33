//! Whether the body of an entry is about a signature, or which part of it is not.
ghost use Rattle.std.specs.Prelude.{◌↔◌, IfOk, IsTrue, MatchOption};
ghost use Rattle.it_log_entry.specs.Agreement.{BodyAgrees};
ghost use Rattle.it_log_entry.specs.BodyMisses.{BodyMisses, SaysCertificate, SaysSignature};
ghost use Rattle.it_log_entry.specs.BodyMisses.{SaysType};
ghost use Rattle.it_log_entry.specs.inside.Said.{AllSay, SaidMisses, said_by};

use crate::body_parts::{BodyParts, parts_in};
use crate::body_shortfall::BodyShortfall;
use crate::certificate_text::has_certificate;
use crate::encoded::{has_bytes, has_twice_encoded};
use crate::kind::EntryKind;
use crate::logged::Logged;
use crate::payload_hash::is_payload_hash;
use crate::read_kind::{is_dsse, is_intoto};
use it_borrowed::document::read_document;
use it_borrowed::text::has_text;
use json::Scratch;
use std::alloc::{AllocError, Global};

/// The first part of a body of this kind that is not about this signature; `None` where the body
/// is about it, and about no other.
pub(crate) fn body_shortfall(
    alloc: Global,
    kind: &EntryKind,
    body: &[u8],
    logged: &Logged<'_>,
) -> Result<Option<BodyShortfall>, AllocError>
    ensures { IfOk result (λ missed. MatchOption missed
        (BodyAgrees kind.now body.now logged.now)
        (BodyMisses kind.now body.now logged.now)) }
{
    let mut scratch = Scratch::new(alloc);
    let Some(document) = read_document(alloc, body, &mut scratch)? else {
        return Ok(Some(BodyShortfall::Form));
    };
    let Some(parts) = parts_in(kind, &document) else {
        return Ok(Some(BodyShortfall::Form));
    };
    parts_shortfall(alloc, kind, &parts, logged)
}

/// The first of the parts that is not about this signature.
fn parts_shortfall(
    alloc: Global,
    kind: &EntryKind,
    parts: &BodyParts<'_, '_>,
    logged: &Logged<'_>,
) -> Result<Option<BodyShortfall>, AllocError>
    ensures { IfOk result (λ missed. MatchOption missed
        (AllSay kind.now logged.now (said_by parts.now))
        (SaidMisses kind.now logged.now (said_by parts.now))) }
{
    if !is_payload_hash(alloc, parts.hash, logged.payload)? {
        return Ok(Some(BodyShortfall::Payload));
    }
    if !is_type(parts, logged) {
        return Ok(Some(BodyShortfall::PayloadType));
    }
    if !is_about_signature(alloc, kind, parts, logged)? {
        return Ok(Some(BodyShortfall::Signature));
    }
    if !is_about_certificate(alloc, kind, parts, logged)? {
        return Ok(Some(BodyShortfall::Certificate));
    }
    Ok(None)
}

fn is_type(parts: &BodyParts<'_, '_>, logged: &Logged<'_>) -> bool
    ensures { IsTrue result ↔ SaysType logged.now (said_by parts.now) }
{
    match parts.envelope {
        None => true,
        Some(envelope) => has_text(envelope, "payloadType", logged.payload_type),
    }
}

fn is_about_signature(
    alloc: Global,
    kind: &EntryKind,
    parts: &BodyParts<'_, '_>,
    logged: &Logged<'_>,
) -> Result<bool, AllocError>
    ensures { IfOk result (λ is. IsTrue is
        ↔ SaysSignature kind.now logged.now (said_by parts.now)) }
{
    if is_dsse(kind) {
        return has_bytes(alloc, parts.signature, "signature", logged.signature);
    }
    if is_intoto(kind) {
        return has_twice_encoded(alloc, parts.signature, "sig", logged.signature);
    }
    Ok(false)
}

fn is_about_certificate(
    alloc: Global,
    kind: &EntryKind,
    parts: &BodyParts<'_, '_>,
    logged: &Logged<'_>,
) -> Result<bool, AllocError>
    ensures { IfOk result (λ is. IsTrue is
        ↔ SaysCertificate kind.now logged.now (said_by parts.now)) }
{
    if is_dsse(kind) {
        return has_certificate(alloc, parts.signature, "verifier", logged.certificate);
    }
    if is_intoto(kind) {
        return has_certificate(alloc, parts.signature, "publicKey", logged.certificate);
    }
    Ok(false)
}
