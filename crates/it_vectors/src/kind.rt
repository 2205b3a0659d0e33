//! The kinds of public keys.
ghost use Rattle.std.specs.Prelude.{◌≡◌, ◌↔◌, IfOk, IsTrue};
ghost use Rattle.it_base.specs.Finds.{Finds};
ghost use Rattle.it_vectors.specs.Key.{IsKeyOf};
ghost use Rattle.it_vectors.specs.Kind.{name_of};
ghost use Rattle.it_vectors.specs.Signature.{IsSignatureOf};

use crate::ed25519::{is_ed25519_key, is_ed25519_signature};
use crate::p256::{is_p256_key, is_p256_signature, is_p256_signature_of_digest};
use crate::p384::{is_p384_key, is_p384_signature, is_p384_signature_of_digest};
use crate::rsa::{has_any_salt, is_pkcs1, is_rsa_key, is_rsa_signature};
use std::alloc::{AllocError, Global};

/// The kind of a vector's key and signature.
#[derive(Clone, Copy)]
pub(crate) enum Kind {
    /// Ed25519 (RFC 8032). A key is its 32 bytes.
    Ed25519,
    /// ECDSA over P-256 with SHA-256 (FIPS 186-5). A key is a SubjectPublicKeyInfo.
    P256,
    /// The same, but with the message's SHA-256 in place of the message.
    P256Digest,
    /// ECDSA over P-384 with SHA-384 (FIPS 186-5). A key is a SubjectPublicKeyInfo.
    P384,
    /// The same, but with the message's SHA-384 in place of the message.
    P384Digest,
    /// RSASSA-PSS with SHA-256 (RFC 8017). A key is a SubjectPublicKeyInfo.
    Rsa,
    /// RSASSA-PKCS1-v1_5 with SHA-256 (RFC 8017, section 8.2). A key is a SubjectPublicKeyInfo.
    RsaPkcs1,
    /// RSASSA-PSS with SHA-256 and a salt of any length. A key is a SubjectPublicKeyInfo.
    RsaAnySalt,
}

impl Kind {
    /// The kind that a vector names this way, or `None` where none has this name.
    pub(crate) fn named(name: &str) -> Option<Kind>
        ensures { Finds (λ kind. name_of kind ≡ name.now) result }
    {
        match name {
            "ed25519" => Some(Kind::Ed25519),
            "p256" => Some(Kind::P256),
            "p256-digest" => Some(Kind::P256Digest),
            "p384" => Some(Kind::P384),
            "p384-digest" => Some(Kind::P384Digest),
            "rsa" => Some(Kind::Rsa),
            "rsa-pkcs1" => Some(Kind::RsaPkcs1),
            "rsa-any-salt" => Some(Kind::RsaAnySalt),
            _ => None,
        }
    }

    /// Whether the bytes are a public key of this kind, by that kind's library.
    pub(crate) fn takes_key(self, key: &[u8]) -> bool
        ensures { IsTrue result ↔ IsKeyOf self key.now }
    {
        match self {
            Kind::Ed25519 => is_ed25519_key(key),
            Kind::P256 => is_p256_key(key),
            Kind::P256Digest => is_p256_key(key),
            Kind::P384 => is_p384_key(key),
            Kind::P384Digest => is_p384_key(key),
            Kind::Rsa => is_rsa_key(key),
            Kind::RsaPkcs1 => is_rsa_key(key),
            Kind::RsaAnySalt => is_rsa_key(key),
        }
    }

    /// Whether the bytes are a public key of this kind and its signature of the message, by that
    /// kind's library.
    pub(crate) fn takes_signature(
        self,
        alloc: Global,
        key: &[u8],
        message: &[u8],
        signature: &[u8],
    ) -> Result<bool, AllocError>
        ensures { IfOk result (λ taken. IsTrue taken
            ↔ IsSignatureOf self key.now message.now signature.now) }
    {
        match self {
            Kind::Ed25519 => Ok(is_ed25519_signature(key, message, signature)),
            Kind::P256 => Ok(is_p256_signature(key, message, signature)),
            Kind::P256Digest => Ok(is_p256_signature_of_digest(key, message, signature)),
            Kind::P384 => Ok(is_p384_signature(key, message, signature)),
            Kind::P384Digest => Ok(is_p384_signature_of_digest(key, message, signature)),
            Kind::Rsa => Ok(is_rsa_signature(key, message, signature)),
            Kind::RsaPkcs1 => is_pkcs1(alloc, key, message, signature),
            Kind::RsaAnySalt => has_any_salt(alloc, key, message, signature),
        }
    }
}
