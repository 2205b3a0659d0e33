//! Bytes that a document holds as base64 text (RFC 4648).
ghost use Rattle.std.specs.Prelude.{◌≡◌, ◌≢◌, ◌⊎◌, alloc_error, false, Some, IfOk, IfErr};
ghost use Rattle.std.specs.Prelude.{IfSome, string_bytes};
ghost use Rattle.std.specs.List.{list_any};
ghost use Rattle.serde_json.specs.View.{view};
ghost use Rattle.base64.specs.Engines.{standard, url_safe};
ghost use Rattle.base64.specs.GeneralPurpose.{decoded_of, encode_of};
ghost use Rattle.it_base.specs.Base64Text.{IsBase64, base64_decoded, base64_encoded, is_url_mark};
ghost use Rattle.it_base.specs.Finds.{Finds};
ghost use Rattle.it_base.specs.Parts.{IsPart};

use crate::document::member;
use crate::sequence::Sequence;
use base64::DecodeAllocError;
use base64::engine::general_purpose::{STANDARD, URL_SAFE};
use serde_json::Value;
use std::alloc::{AllocError, Global};

/// The bytes that the member of this name encodes, or `None` where it is missing, is not text, or
/// is not base64 with padding (RFC 4648 sections 4 and 5).
///
/// # Errors
///
/// `AllocError` where memory was refused.
pub fn base64_part(
    alloc: Global,
    value: &Value,
    name: &str,
) -> Result<Option<Sequence<u8>>, AllocError>
    ensures { IfOk result (Finds (IsPart IsBase64 name.now (view value.now))) }
{
    match member(value, name) {
        None => Ok(None),
        Some(found) => base64_bytes(alloc, found),
    }
}

/// The base64 text of the bytes, in the standard alphabet with padding (RFC 4648 section 4). It
/// decodes to the same bytes.
///
/// # Errors
///
/// `AllocError` where memory was refused.
pub fn base64_text_of(alloc: Global, bytes: &[u8]) -> Result<String, AllocError>
    ensures text { IfOk result (λ text. string_bytes text ≡ base64_encoded bytes.now) }
    ensures reads_back { IfOk result
        (λ text. base64_decoded (string_bytes text) ≡ Some bytes.now) }
{
    standard_text(alloc, bytes)
}

#[tactic(auto, unfolding(base64::specs::GeneralPurpose::decoded_of))]
fn standard_text(alloc: Global, bytes: &[u8]) -> Result<String, AllocError>
    ensures text { IfOk result (λ text. string_bytes text ≡ encode_of standard bytes.now) }
    ensures decodes { IfOk result
        (λ text. decoded_of standard (string_bytes text) ≡ Some bytes.now) }
{
    STANDARD.encode(alloc, bytes)
}

/// The bytes that a value encodes, or `None` where it is not text, or is not base64 with padding
/// (RFC 4648 sections 4 and 5).
///
/// # Errors
///
/// `AllocError` where memory was refused.
pub fn base64_bytes(alloc: Global, value: &Value) -> Result<Option<Sequence<u8>>, AllocError>
    ensures { IfOk result (Finds (IsBase64 (view value.now))) }
{
    match value.as_str() {
        None => Ok(None),
        Some(text) => decode_base64(alloc, text.as_bytes()),
    }
}

/// The bytes that a text encodes with padding, or `None` where it is not base64. One mark of the
/// alphabet for URLs (RFC 4648 section 5) selects that for the whole text. No text with such a mark
/// is one of the standard alphabet, so marks are looked for only where that alphabet refuses.
///
/// # Errors
///
/// `AllocError` where memory was refused.
pub fn decode_base64(alloc: Global, text: &[u8]) -> Result<Option<Sequence<u8>>, AllocError>
    ensures { IfOk result (λ found. found ≡ base64_decoded text.now) }
{
    if let Some(bytes) = decode_standard(alloc, text)? {
        return Ok(Some(bytes));
    }
    if has_url_mark(text) {
        decode_url_safe(alloc, text)
    } else {
        Ok(None)
    }
}

/// Whether a text has a mark of the URL-safe alphabet.
fn has_url_mark(text: &[u8]) -> bool
    ensures { result ≡ list_any is_url_mark text.now }
{
    text.iter().any(|byte| matches!(byte, b'-' | b'_'))
}

fn decode_url_safe(alloc: Global, text: &[u8]) -> Result<Option<Sequence<u8>>, AllocError>
    ensures { IfOk result (λ found. found ≡ decoded_of url_safe text.now) }
{
    settled(url_safe_outcome(alloc, text))
}

/// The bytes that a text encodes in the standard alphabet with padding (RFC 4648 section 4), or
/// `None` where it encodes none, such as a text with a mark of the alphabet for URLs.
///
/// # Errors
///
/// `AllocError` where memory was refused.
pub fn decode_standard(alloc: Global, text: &[u8]) -> Result<Option<Sequence<u8>>, AllocError>
    ensures bytes { IfOk result (λ found. found ≡ decoded_of standard text.now) }
    ensures unmarked { IfOk result
        (λ found. IfSome found (λ bytes. list_any is_url_mark text.now ≡ false)) }
{
    settled(standard_outcome(alloc, text))
}

#[tactic(auto, unfolding(base64::specs::GeneralPurpose::decoded_of))]
fn standard_outcome(alloc: Global, text: &[u8]) -> Result<Vec<u8>, DecodeAllocError>
    ensures ok { IfOk result (λ bytes. decoded_of standard text.now ≡ Some bytes.items) }
    ensures unmarked { IfOk result (λ bytes. list_any is_url_mark text.now ≡ false) }
    ensures err { IfErr result
        (λ e. (e ≡ DecodeAllocError.OutOfMemory) ⊎ (decoded_of standard text.now ≡ None)) }
{
    STANDARD.decode(alloc, text)
}

#[tactic(auto, unfolding(base64::specs::GeneralPurpose::decoded_of))]
fn url_safe_outcome(alloc: Global, text: &[u8]) -> Result<Vec<u8>, DecodeAllocError>
    ensures ok { IfOk result (λ bytes. decoded_of url_safe text.now ≡ Some bytes.items) }
    ensures err { IfErr result
        (λ e. (e ≡ DecodeAllocError.OutOfMemory) ⊎ (decoded_of url_safe text.now ≡ None)) }
{
    URL_SAFE.decode(alloc, text)
}

fn settled(outcome: Result<Vec<u8>, DecodeAllocError>) -> Result<Option<Sequence<u8>>, AllocError>
    ensures ok { IfOk outcome (λ bytes. result ≡ Ok (Some bytes.items)) }
    ensures err { IfErr outcome (λ e. (result ≡ Err alloc_error)
        ⊎ ((e ≢ DecodeAllocError.OutOfMemory) × (result ≡ Ok None))) }
{
    match outcome {
        Ok(bytes) => Ok(Some(Sequence::from(bytes))),
        Err(DecodeAllocError::OutOfMemory) => Err(AllocError),
        Err(DecodeAllocError::DecodeError(_)) => Ok(None),
    }
}
