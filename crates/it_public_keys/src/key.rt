//! Public keys of four kinds.
ghost use Rattle.std.specs.Prelude.{◌≡◌, ℕ, IfOk, List};
ghost use Rattle.it_message.specs.Message.{joined};
ghost use Rattle.it_public_keys.specs.Validity.{is_signature_of, is_signature_with};

use it_message::{join, message_sha256};
use std::alloc::{AllocError, Global};

/// A public key, decoded once.
#[derive(Drop)]
pub enum Key {
    /// An Ed25519 key (RFC 8032). To a contract, it is its 32 bytes.
    Ed25519(it_ed25519::PublicKey),
    /// An ECDSA key over P-256 (FIPS 186-5). To a contract, it is its coordinates.
    P256(it_p256::PublicKey),
    /// An ECDSA key over P-384 (FIPS 186-5). To a contract, it is its coordinates.
    P384(it_p384::PublicKey),
    /// An RSASSA-PSS key (RFC 8017). To a contract, it is its modulus and its exponent.
    Rsa(it_rsa::PublicKey),
}

impl Key {
    /// The same key, made for many signatures where its kind gains by that. Where memory is
    /// refused, nothing is gained.
    pub(crate) fn for_many(self, alloc: Global) -> Key
        ensures { result ≡ self }
    {
        match self {
            Key::Ed25519(key) => Key::Ed25519(key.for_many(alloc)),
            key => key,
        }
    }

    /// What is computed once per message, however many signatures are tried: its SHA-256 if the
    /// key's kind signs that, otherwise zeros.
    pub(crate) fn digest(&self, message: &[&[u8]]) -> [u8; 32]
        ensures { (signature : List ℕ)
            → is_signature_with self.now result (joined message.now) signature
            ≡ is_signature_of self.now (joined message.now) signature }
    {
        match self {
            Key::Ed25519(_) | Key::P384(_) => [0; 32],
            Key::P256(_) | Key::Rsa(_) => message_sha256(message),
        }
    }

    /// What a check looks at of the message that the parts make, beside its SHA-256: the message
    /// itself if the key's kind signs that or another digest, otherwise nothing.
    pub(crate) fn looked_at(&self, alloc: Global, message: &[&[u8]]) -> Result<Vec<u8>, AllocError>
        ensures { IfOk result (λ part. (digest signature : List ℕ)
            → is_signature_with self.now digest part.items signature
            ≡ is_signature_with self.now digest (joined message.now) signature) }
    {
        match self {
            Key::Ed25519(_) | Key::P384(_) => join(alloc, message),
            Key::P256(_) | Key::Rsa(_) => Ok(Vec::new(alloc)),
        }
    }

    /// Whether `sig` is the key's signature of the joined message or, for the kinds that sign a
    /// SHA-256, of what has this one.
    pub(crate) fn is_signature_with(&self, digest: &[u8; 32], message: &[&[u8]], sig: &[u8]) -> bool
        ensures { result ≡ is_signature_with self.now digest.now (joined message.now) sig.now }
    {
        match self {
            Key::Ed25519(key) => it_ed25519::is_signature(key, message, sig),
            Key::P256(key) => it_p256::is_signature_of_digest(key, digest, sig),
            Key::P384(key) => it_p384::is_signature(key, message, sig),
            Key::Rsa(key) => it_rsa::is_signature_of_digest(key, digest, sig),
        }
    }
}
