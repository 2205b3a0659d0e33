//! Bytes that a member encodes, once or twice.
ghost use Rattle.std.specs.Prelude.{◌≡◌, ◌↔◌, Some, IfOk, IsTrue};
ghost use Rattle.it_borrowed.specs.Tree.{as_data};
ghost use Rattle.it_base.specs.Base64Text.{IsBase64, base64_decoded};
ghost use Rattle.it_base.specs.Parts.{IsPart};
ghost use Rattle.it_log_entry.specs.IntotoBody.{IsTwiceBase64};

use it_base::base64_text::decode_base64;
use it_borrowed::base64_text::base64_part;
use json::Value;
use std::alloc::{AllocError, Global};

/// Whether the member of this name is base64 of the bytes.
pub(crate) fn has_bytes(
    alloc: Global,
    value: &Value<'_>,
    name: &str,
    bytes: &[u8],
) -> Result<bool, AllocError>
    ensures { IfOk result (λ has. IsTrue has
        ↔ IsPart IsBase64 name.now (as_data value.now) bytes.now) }
{
    match base64_part(alloc, value, name)? {
        Some(found) => Ok(found.as_slice() == bytes),
        None => Ok(false),
    }
}

/// Whether the member of this name is base64 of base64 of the bytes.
pub(crate) fn has_twice_encoded(
    alloc: Global,
    value: &Value<'_>,
    name: &str,
    bytes: &[u8],
) -> Result<bool, AllocError>
    ensures { IfOk result (λ has. IsTrue has
        ↔ IsPart IsTwiceBase64 name.now (as_data value.now) bytes.now) }
{
    match base64_part(alloc, value, name)? {
        Some(text) => encodes(alloc, text.as_slice(), bytes),
        None => Ok(false),
    }
}

/// Whether a text is base64 of the bytes.
fn encodes(alloc: Global, text: &[u8], bytes: &[u8]) -> Result<bool, AllocError>
    ensures { IfOk result (λ is. IsTrue is ↔ (base64_decoded text.now ≡ Some bytes.now)) }
{
    match decode_base64(alloc, text)? {
        Some(found) => Ok(found.as_slice() == bytes),
        None => Ok(false),
    }
}
