//! Which keys signed a message, by the objects that describe them.
ghost use Rattle.std.specs.Prelude.{◌≡◌, ◌↔◌, IfErr, IfOk, IsFalse, IsTrue};
ghost use Rattle.it_key_commands.specs.SignMadeOutput.{IsNotValidFor};
ghost use Rattle.it_key_commands.specs.Signers.{IsKeyless, IsValidFor, SignedUnder};

use crate::fault::KeyFault;
use it_dsse::envelope::Signature;
use it_dsse::key_object::KeyObject;
use it_dsse::meter::Meter;
use it_public_keys::named_key::key_of;

/// Whether the key that an object describes signed the message: one of the signatures is tried for
/// its id and valid for it.
pub(crate) fn is_signed_under(
    id: &str,
    object: &KeyObject,
    message: &[u8],
    signatures: &[Signature],
) -> bool
    ensures { IsTrue result ↔ SignedUnder message.now signatures.now (id.now, object.now) }
{
    let Some(key) = key_of(object) else {
        return false;
    };
    key.is_of_bytes();
    let mut meter = Meter { asked: 0 };
    key.any_valid(&[message], signatures, id, &mut meter)
}

/// Whether a signature of the message is valid for the key that an object describes.
///
/// # Errors
///
/// `NoPublicKey` where the object describes no key.
pub(crate) fn is_signature(
    object: &KeyObject,
    message: &[u8],
    signature: &[u8],
) -> Result<bool, KeyFault>
    ensures valid { IfOk result
        (λ valid. IsTrue valid → IsValidFor object.now message.now signature.now) }
    ensures bad { IfOk result
        (λ valid. IsFalse valid → IsNotValidFor object.now message.now signature.now) }
    ensures err { IfErr result
        (λ fault. (fault ≡ KeyFault.NoPublicKey) × IsKeyless object.now) }
{
    match key_of(object) {
        Some(key) => Ok(key.is_signature(&[message], signature)),
        None => Err(KeyFault::NoPublicKey),
    }
}

/// Whether an object describes a key for which a signature of the message is valid.
pub(crate) fn is_valid_for(object: &KeyObject, message: &[u8], signature: &[u8]) -> bool
    ensures { IsTrue result → IsValidFor object.now message.now signature.now }
{
    match is_signature(object, message, signature) {
        Ok(valid) => valid,
        Err(_) => false,
    }
}
