//! Keys and signatures of Ed25519.
ghost use Rattle.std.specs.Prelude.{◌≡◌, ◌↔◌, IsTrue, IsSome, IfSome};
ghost use Rattle.it_ed25519.specs.PublicKey.{IsPublicKey};
ghost use Rattle.it_ed25519.specs.Signature.{IsSignature};

use it_ed25519::{PublicKey, is_signature};

/// The key that the bytes are, or `None` where they are not 32 bytes of one.
fn ed25519_key(bytes: &[u8]) -> Option<PublicKey>
    ensures some { IsSome result ↔ IsPublicKey bytes.now }
    ensures key { IfSome result (λ key. key ≡ bytes.now) }
{
    match <&[u8; 32]>::try_from(bytes) {
        Ok(bytes) => PublicKey::from_bytes(bytes),
        Err(_) => None,
    }
}

/// Whether the bytes are an Ed25519 public key.
pub(crate) fn is_ed25519_key(bytes: &[u8]) -> bool
    ensures { IsTrue result ↔ IsPublicKey bytes.now }
{
    ed25519_key(bytes).is_some()
}

/// Whether the bytes are an Ed25519 public key, and its signature of the message.
pub(crate) fn is_ed25519_signature(key: &[u8], message: &[u8], signature: &[u8]) -> bool
    ensures { IsTrue result
        ↔ (IsPublicKey key.now × IsSignature key.now message.now signature.now) }
{
    match ed25519_key(key) {
        Some(key) => is_signature(&key, &[message], signature),
        None => false,
    }
}
