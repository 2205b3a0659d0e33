//! Keys and signatures of ECDSA over P-384.
ghost use Rattle.std.specs.Prelude.{◌↔◌, IsTrue};
ghost use Rattle.it_p384.specs.Key.{Key};
ghost use Rattle.it_p384.specs.Signature.{IsSignature};
ghost use Rattle.it_vectors.specs.Key.{IsP384Info};
ghost use Rattle.it_vectors.specs.Signature.{IsP384SignedDigest};

use it_p384::laws::info_tells_key;
use it_p384::{PublicKey, is_signature, is_signature_of_digest};

/// Whether the bytes are the SubjectPublicKeyInfo of a key of P-384.
pub(crate) fn is_p384_key(info: &[u8]) -> bool
    ensures { IsTrue result ↔ ((key : Key) × IsP384Info info.now key) }
{
    PublicKey::from_info(info).is_some()
}

/// Whether the bytes are the SubjectPublicKeyInfo of a key of P-384, and its signature of the
/// message.
pub(crate) fn is_p384_signature(info: &[u8], message: &[u8], signature: &[u8]) -> bool
    ensures { IsTrue result ↔ ((key : Key) × IsP384Info info.now key
        × IsSignature key message.now signature.now) }
{
    info_tells_key();
    match PublicKey::from_info(info) {
        Some(key) => is_signature(&key, &[message], signature),
        None => false,
    }
}

/// Whether the bytes are the SubjectPublicKeyInfo of a key of P-384, and its signature of a message
/// with this SHA-384, which has 48 bytes.
pub(crate) fn is_p384_signature_of_digest(info: &[u8], digest: &[u8], signature: &[u8]) -> bool
    ensures { IsTrue result ↔ IsP384SignedDigest info.now digest.now signature.now }
{
    info_tells_key();
    let Ok(digest) = <&[u8; 48]>::try_from(digest) else {
        return false;
    };
    match PublicKey::from_info(info) {
        Some(key) => is_signature_of_digest(&key, digest, signature),
        None => false,
    }
}
