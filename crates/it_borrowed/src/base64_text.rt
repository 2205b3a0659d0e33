//! Bytes that a document holds as base64 text (RFC 4648).
ghost use Rattle.std.specs.Prelude.{IfOk};
ghost use Rattle.it_base.specs.Base64Text.{IsBase64};
ghost use Rattle.it_base.specs.Finds.{Finds};
ghost use Rattle.it_base.specs.Parts.{IsPart};
ghost use Rattle.it_borrowed.specs.Tree.{as_data};

use crate::document::member;
use crate::text::text_of;
use it_base::base64_text::decode_base64;
use it_base::sequence::Sequence;
use json::Value;
use std::alloc::{AllocError, Global};

/// The bytes that the member of this name encodes, or `None` where it is missing, is not text, or
/// is not base64 with padding (RFC 4648 sections 4 and 5).
///
/// # Errors
///
/// `AllocError` where memory was refused.
pub fn base64_part(
    alloc: Global,
    value: &Value<'_>,
    name: &str,
) -> Result<Option<Sequence<u8>>, AllocError>
    ensures { IfOk result (Finds (IsPart IsBase64 name.now (as_data value.now))) }
{
    match member(value, name) {
        None => Ok(None),
        Some(found) => base64_bytes(alloc, found),
    }
}

/// The bytes that a value encodes, or `None` where it is not text, or is not base64 with padding.
fn base64_bytes(alloc: Global, value: &Value<'_>) -> Result<Option<Sequence<u8>>, AllocError>
    ensures { IfOk result (Finds (IsBase64 (as_data value.now))) }
{
    match text_of(value) {
        None => Ok(None),
        Some(text) => decode_base64(alloc, text.as_bytes()),
    }
}
