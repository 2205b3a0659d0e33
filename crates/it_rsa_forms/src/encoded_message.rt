//! The encoded messages that signatures open to.
ghost use Rattle.std.specs.Prelude.{◌≡◌, ◌≤◌, ◌↔◌, ℕ, IfOk, IsTrue, List, MatchOption, length};
ghost use Rattle.it_numbers.specs.Bytes.{big, big_bytes};
ghost use Rattle.it_rsa.specs.Key.{Key};
ghost use Rattle.it_rsa.specs.Signature.{representative};
ghost use Rattle.it_rsa_forms.specs.Info.{IsInfoOf};
ghost use Rattle.it_rsa_forms.specs.inside.Opening.{IsNumberFor, OpensTo};

use crate::key_bytes::{exponent_in, modulus_in};
use it_rsa::PublicKey;
use std::alloc::{AllocError, Global};

/// The encoded message of a signature by the key of a SubjectPublicKeyInfo. `None` where these
/// bytes are no key's, or the signature is no number below its modulus in as many bytes.
pub(crate) fn encoded_message(
    alloc: Global,
    info: &[u8],
    signature: &[u8],
) -> Result<Option<Vec<u8>>, AllocError>
    ensures { IfOk result (λ found. MatchOption found
        ((key : Key) → IsInfoOf info.now key → IsNumberFor key signature.now → ⊥)
        (λ em. OpensTo info.now signature.now em.items)) }
{
    let Some(key) = PublicKey::from_info(info) else {
        return Ok(None);
    };
    if signature.len() != key.size() {
        return Ok(None);
    }
    let mut em = Vec::from_slice(alloc, signature)?;
    if open(info, em.as_mut_slice()) {
        Ok(Some(em))
    } else {
        Ok(None)
    }
}

/// Replaces a signature by its encoded message, where it is a number below the modulus.
fn open(info: &[u8], signature: &mut [u8]) -> bool
    requires { (key : Key) × IsInfoOf info.now key × (length signature.old ≡ length key.modulus) }
    ensures { (key : Key) → IsInfoOf info.now key → ((IsTrue result ↔ IsNumberFor key signature.old)
        × (IsTrue result → signature.new ≡ big_bytes (length key.modulus)
        (representative key signature.old))) }
{
    let modulus = modulus_in(info, signature.len());
    if !modulus.is_above(signature) {
        return false;
    }
    let exponent = exponent_in(info, signature.len());
    modulus.raise(signature, exponent);
    true
}
