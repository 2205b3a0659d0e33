//! All signatures that are valid for a key.
ghost use Rattle.std.specs.Prelude.{IfOk, map};
ghost use Rattle.it_dsse.specs.Signed.{AreThose, Vouches, message_of};

use crate::vouches::vouches;
use it_dsse::checks::Checks;
use it_dsse::envelope::{Envelope, Signature};
use it_dsse::pae;
use std::alloc::{AllocError, Global};

/// The signatures of an envelope that are admitted for an id and valid for a key, in the order of
/// the envelope (DSSE v1.0, "Protocol"). The `checks` check each that is admitted.
///
/// # Errors
///
/// `AllocError` where memory was refused, or where the checks refuse to check more signatures.
pub fn valid_signatures<'a, C: Checks>(
    alloc: Global,
    envelope: &'a Envelope,
    id: &str,
    key: &C::Found,
    checks: &C,
) -> Result<Vec<&'a Signature>, AllocError>
    requires { C.stands checks.now key.now }
    ensures { IfOk result (λ kept. AreThose
        (Vouches (C.panel checks.now) id.now (C.number checks.now key.now)
        (message_of envelope.now)) envelope.now.signatures
        (map (λ signature. signature.now) kept.items)) }
{
    let kind = envelope.payload_type.as_str();
    let message = pae(alloc, kind, envelope.payload.as_slice())?;
    let mut kept = Vec::new(alloc);
    for signature in envelope.signatures.as_slice() {
        let vouches = vouches(checks, key, id, message.as_slice(), signature)?;
        if vouches {
            kept.push(signature)?;
        }
    }
    Ok(kept)
}
