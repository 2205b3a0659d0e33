//! Keys and signatures of RSA.
ghost use Rattle.std.specs.Prelude.{◌↔◌, IfOk, IsTrue};
ghost use Rattle.it_rsa.specs.Key.{Key};
ghost use Rattle.it_rsa.specs.Signature.{IsSignature};
ghost use Rattle.it_rsa_forms.specs.Info.{IsInfoOf};
ghost use Rattle.it_rsa_forms.specs.Pkcs1.{IsPkcs1Signature};
ghost use Rattle.it_vectors.specs.Key.{IsRsaInfo};
ghost use Rattle.it_vectors.specs.Signature.{HasSomeSalt};

use it_rsa::laws::info_tells_key;
use it_rsa::{PublicKey, is_signature};
use it_rsa_forms::{is_pkcs1_signature, pss_salt};
use std::alloc::{AllocError, Global};

/// Whether the bytes are the SubjectPublicKeyInfo of a key of RSA.
pub(crate) fn is_rsa_key(info: &[u8]) -> bool
    ensures { IsTrue result ↔ ((key : Key) × IsRsaInfo info.now key) }
{
    PublicKey::from_info(info).is_some()
}

/// Whether the bytes are the SubjectPublicKeyInfo of a key of RSA, and its signature of the
/// message.
pub(crate) fn is_rsa_signature(info: &[u8], message: &[u8], signature: &[u8]) -> bool
    ensures { IsTrue result ↔ ((key : Key) × IsRsaInfo info.now key
        × IsSignature key message.now signature.now) }
{
    info_tells_key();
    match PublicKey::from_info(info) {
        Some(key) => is_signature(&key, &[message], signature),
        None => false,
    }
}

/// Whether the bytes are the SubjectPublicKeyInfo of a key of RSA, and its signature of the message
/// by RSASSA-PKCS1-v1_5.
pub(crate) fn is_pkcs1(
    alloc: Global,
    info: &[u8],
    message: &[u8],
    signature: &[u8],
) -> Result<bool, AllocError>
    ensures { IfOk result (λ is. IsTrue is ↔ ((key : Key) × IsInfoOf info.now key
        × IsPkcs1Signature key message.now signature.now)) }
{
    is_pkcs1_signature(alloc, info, message, signature)
}

/// Whether the bytes are the SubjectPublicKeyInfo of a key of RSA, and its signature of the message
/// by RSASSA-PSS with a salt of some length.
pub(crate) fn has_any_salt(
    alloc: Global,
    info: &[u8],
    message: &[u8],
    signature: &[u8],
) -> Result<bool, AllocError>
    ensures { IfOk result (λ has. IsTrue has ↔ HasSomeSalt info.now message.now signature.now) }
{
    match pss_salt(alloc, info, message, signature)? {
        Some(_) => Ok(true),
        None => Ok(false),
    }
}
