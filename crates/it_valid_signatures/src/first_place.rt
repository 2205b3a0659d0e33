//! The place of the first signature that is valid for a key.
ghost use Rattle.std.specs.Prelude.{IfOk};
ghost use Rattle.it_base.specs.Finds.{Finds};
ghost use Rattle.it_dsse.specs.Signed.{Vouches};
ghost use Rattle.it_valid_signatures.specs.FirstPlace.{IsFirstPlace, IsSignedAt};

use crate::vouches::vouches;
use it_dsse::checks::Checks;
use it_dsse::envelope::{Envelope, Signature};
use it_dsse::key_object::KeyObject;
use it_dsse::pae;
use std::alloc::{AllocError, Global};

/// The place, from 1, of the first signature of an envelope that is admitted for an id and valid
/// for the key that the id and the object name (DSSE v1.0, "Protocol"); `None` where that key is
/// not known or there is no such signature. The `checks` check those that are admitted, up to it.
///
/// # Errors
///
/// `AllocError` where memory was refused, or where the checks refuse to check more signatures.
pub fn signature_place<C: Checks>(
    alloc: Global,
    envelope: &Envelope,
    id: &str,
    object: &KeyObject,
    checks: &C,
) -> Result<Option<u64>, AllocError>
    ensures { IfOk result
        (Finds (IsSignedAt (C.panel checks.now) envelope.now id.now object.now)) }
{
    let Some(key) = checks.find(id, object) else {
        return Ok(None);
    };
    let kind = envelope.payload_type.as_str();
    let message = pae(alloc, kind, envelope.payload.as_slice())?;
    let signatures = envelope.signatures.as_slice();
    first_place(checks, &key, id, message.as_slice(), signatures)
}

/// The place, from 1, of the first signature of a message that is admitted for an id and valid for
/// a key.
fn first_place<C: Checks>(
    checks: &C,
    key: &C::Found,
    id: &str,
    message: &[u8],
    signatures: &[Signature],
) -> Result<Option<u64>, AllocError>
    requires { C.stands checks.now key.now }
    ensures { IfOk result (Finds (IsFirstPlace (Vouches (C.panel checks.now) id.now
        (C.number checks.now key.now) message.now) signatures.now)) }
{
    for index in 0..signatures.len() {
        let vouches = vouches(checks, key, id, message, &signatures[index])?;
        if vouches {
            return Ok(Some(index as u64 + 1));
        }
    }
    Ok(None)
}
