//! Which ids signed an envelope, by checks of any kind.
ghost use Rattle.std.specs.Prelude.{IfOk, map, string_bytes};
ghost use Rattle.it_dsse.specs.Signed.{AreThose, IsSigner};

use crate::checks::Checks;
use crate::envelope::Envelope;
use crate::key_object::KeyObject;
use crate::meter::Meter;
use crate::signer::is_signer;
use std::alloc::{AllocError, Global};

/// Those of the given ids whose key signed the envelope, in the order given.
///
/// # Errors
///
/// `AllocError` where memory was refused, or where the checks answer with an error.
pub fn signed_ids_by<C: Checks>(
    alloc: Global,
    envelope: &Envelope,
    ids: &[String],
    object: &KeyObject,
    checks: &C,
) -> Result<Vec<String>, AllocError>
    ensures { IfOk result (λ signers. AreThose (IsSigner (C.panel checks.now)
        envelope.now object.now)
        (map string_bytes ids.now) (map string_bytes signers.items)) }
{
    let mut meter = Meter { asked: 0 };
    let mut signers = Vec::new(alloc);
    for id in ids {
        let text = id.as_str();
        let signed = is_signer(envelope, text, object, checks, &mut meter)?;
        if signed {
            signers.push(String::from_str(alloc, text)?)?;
        }
    }
    Ok(signers)
}
