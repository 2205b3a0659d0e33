//! The hash of a payload in the body of an entry.
ghost use Rattle.std.specs.Prelude.{◌↔◌, IfOk, IsTrue};
ghost use Rattle.it_borrowed.specs.Tree.{as_data};
ghost use Rattle.it_log_entry.specs.PayloadHash.{IsPayloadHash};

use it_borrowed::text::has_text;
use json::Value;
use sha2::{Digest, Sha256};
use std::alloc::{AllocError, Global};

/// Whether a value is the hash of the payload.
pub(crate) fn is_payload_hash(
    alloc: Global,
    value: &Value<'_>,
    payload: &[u8],
) -> Result<bool, AllocError>
    ensures { IfOk result (λ is. IsTrue is ↔ IsPayloadHash (as_data value.now) payload.now) }
{
    let digest = Sha256::digest(payload);
    let digits = hex::encode(alloc, digest.as_slice())?;
    if !has_text(value, "algorithm", "sha256") {
        return Ok(false);
    }
    Ok(has_text(value, "value", digits.as_str()))
}
