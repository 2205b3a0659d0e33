//! Bytes that a document holds as hexadecimal text (RFC 4648 section 8, either case).
ghost use Rattle.std.specs.Prelude.{◌≡◌, IfOk};
ghost use Rattle.serde_json.specs.View.{view};
ghost use Rattle.it_base.specs.Finds.{Finds};
ghost use Rattle.it_base.specs.HexadecimalText.{IsHexadecimal, hexadecimal_decoded};
ghost use Rattle.it_base.specs.Parts.{IsPart};

use crate::document::member;
use crate::sequence::Sequence;
use hex::FromHexError;
use serde_json::Value;
use std::alloc::{AllocError, Global};

/// The bytes that the member of this name encodes, or `None` where it is missing, is not text, or
/// is not an even number of hexadecimal digits.
///
/// # Errors
///
/// `AllocError` where memory was refused.
pub fn hexadecimal_part(
    alloc: Global,
    value: &Value,
    name: &str,
) -> Result<Option<Sequence<u8>>, AllocError>
    ensures { IfOk result (Finds (IsPart IsHexadecimal name.now (view value.now))) }
{
    match member(value, name) {
        None => Ok(None),
        Some(found) => hexadecimal_bytes(alloc, found),
    }
}

fn hexadecimal_bytes(alloc: Global, value: &Value) -> Result<Option<Sequence<u8>>, AllocError>
    ensures { IfOk result (Finds (IsHexadecimal (view value.now))) }
{
    match value.as_str() {
        None => Ok(None),
        Some(text) => decode(alloc, text),
    }
}

#[tactic(auto, unfolding(crate::specs::HexadecimalText::hexadecimal_decoded))]
fn decode(alloc: Global, text: &str) -> Result<Option<Sequence<u8>>, AllocError>
    ensures { IfOk result (λ found. found ≡ hexadecimal_decoded text.now) }
{
    match hex::decode(alloc, text) {
        Ok(bytes) => Ok(Some(Sequence::from(bytes))),
        Err(FromHexError::OutOfMemory) => Err(AllocError),
        Err(_) => Ok(None),
    }
}
