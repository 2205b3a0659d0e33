//! Whose signature it is that is not valid for the key of its id.
ghost use Rattle.std.specs.Prelude.{IfOk, IfSome, IsTrue};
ghost use Rattle.it_key_commands.specs.SignMadeOutput.{HasObject, IsMadeUnder};
ghost use Rattle.it_key_commands.specs.Signers.{IsValidFor};

use crate::made_signature::MadeSignature;
use crate::signer::is_valid_for;
use it_base::table::Table;
use it_dsse::key_object::KeyObject;
use it_dsse::pae;
use std::alloc::{AllocError, Global};

/// An id, whatever id the signature is given with, under which `keys` has a public key that made
/// the signature of the body, or `None` where none is found.
///
/// # Errors
///
/// `AllocError` where memory was refused.
pub fn other_signer<'k>(
    alloc: Global,
    made: &MadeSignature<'_>,
    keys: &'k Table<KeyObject>,
) -> Result<Option<&'k str>, AllocError>
    ensures { let m = made.now in IfOk result (λ found. IfSome found
        (λ id. IsMadeUnder keys.now id.now m.kind.now m.body.now m.signature.now)) }
{
    let message = pae(alloc, made.kind, made.body)?;
    for (id, _) in keys.iter() {
        let id = id.as_str();
        if is_signer(keys, id, message.as_slice(), made.signature) {
            return Ok(Some(id));
        }
    }
    Ok(None)
}

/// Whether there is a public key under the id for which the signature of the message is valid.
fn is_signer(keys: &Table<KeyObject>, id: &str, message: &[u8], signature: &[u8]) -> bool
    ensures { IsTrue result → HasObject keys.now id.now
        (λ object. IsValidFor object message.now signature.now) }
{
    match keys.get(id) {
        Some(object) => is_valid_for(object, message, signature),
        None => false,
    }
}
