//! Which form a signature by an RSA key has that is not taken.
ghost use Rattle.std.specs.Prelude.{◌≡◌, ◌≢◌, IfOk, IfSome, IsTrue, codes};
ghost use Rattle.it_rsa.specs.Key.{Key};
ghost use Rattle.it_rsa_forms.specs.Info.{IsInfoOf};
ghost use Rattle.it_rsa_forms.specs.Pss.{IsPssOfSalt};
ghost use Rattle.it_key_commands.specs.SignatureFlaw.{IsOtherSalt, IsPkcs1, IsSignatureFlaw};

use crate::fault::SignatureFlaw;
use crate::made_signature::MadeSignature;
use it_dsse::key_object::KeyObject;
use it_pem::public_key_info;
use it_rsa_forms::{is_pkcs1_signature, pss_salt};
use std::alloc::{AllocError, Global};

/// The scheme of RSA keys.
const RSA_SCHEME: &str = "rsassa-pss-sha256";

/// How many bytes the salt has that is taken.
const SALT_SIZE: usize = 32;

/// What a signature is that is valid for nothing else, by its form. `message` is what a valid one
/// signs.
pub(crate) fn form_flaw(
    alloc: Global,
    object: &KeyObject,
    made: &MadeSignature<'_>,
    message: &[u8],
) -> Result<SignatureFlaw, AllocError>
    ensures { IfOk result (IsSignatureFlaw object.now message.now made.now.body.now
        made.now.signature.now) }
{
    if object.scheme.as_str() != RSA_SCHEME {
        return Ok(SignatureFlaw::Other);
    }
    if is_pkcs1(alloc, object, message, made.signature)? {
        return Ok(SignatureFlaw::Pkcs1);
    }
    match other_salt(alloc, object, message, made.signature)? {
        Some(salt) => Ok(SignatureFlaw::OtherSalt(salt)),
        None => Ok(SignatureFlaw::OtherRsa),
    }
}

/// Whether a signature is one of the message by PKCS #1 v1.5, for an object of the scheme of RSA.
fn is_pkcs1(
    alloc: Global,
    object: &KeyObject,
    message: &[u8],
    signature: &[u8],
) -> Result<bool, AllocError>
    requires { object.now.scheme ≡ codes "rsassa-pss-sha256" }
    ensures { IfOk result (λ is. IsTrue is → IsPkcs1 object.now message.now signature.now) }
{
    match public_key_info(object.public.as_str()) {
        Some(info) => is_pkcs1_signature(alloc, info.as_bytes(), message, signature),
        None => Ok(false),
    }
}

/// The length of the salt of a signature of the message, where that is another than the one that is
/// taken, for an object of the scheme of RSA.
fn other_salt(
    alloc: Global,
    object: &KeyObject,
    message: &[u8],
    signature: &[u8],
) -> Result<Option<usize>, AllocError>
    requires { object.now.scheme ≡ codes "rsassa-pss-sha256" }
    ensures { IfOk result (λ found. IfSome found
        (λ salt. IsOtherSalt object.now message.now signature.now salt)) }
{
    match public_key_info(object.public.as_str()) {
        Some(info) => other_salt_by(alloc, info.as_bytes(), message, signature),
        None => Ok(None),
    }
}

/// The same by the key of a SubjectPublicKeyInfo.
fn other_salt_by(
    alloc: Global,
    info: &[u8],
    message: &[u8],
    signature: &[u8],
) -> Result<Option<usize>, AllocError>
    ensures { IfOk result (λ found. IfSome found (λ salt. (key : Key) × IsInfoOf info.now key
        × IsPssOfSalt key message.now signature.now salt × (salt ≢ 32))) }
{
    match pss_salt(alloc, info, message, signature)? {
        Some(salt) if salt != SALT_SIZE => Ok(Some(salt)),
        _ => Ok(None),
    }
}
