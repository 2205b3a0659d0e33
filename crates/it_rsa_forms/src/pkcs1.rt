//! Signatures of RSASSA-PKCS1-v1_5 (RFC 8017, section 8.2) with SHA-256.
ghost use Rattle.std.specs.Prelude.{◌≡◌, ◌≤◌, ◌↔◌, ◌++◌, ℕ, IfOk, IsTrue, List, OnOk, length};
ghost use Rattle.std.specs.Prelude.{replicate};
ghost use Rattle.it_rsa.specs.Key.{Key};
ghost use Rattle.it_rsa_forms.specs.Info.{IsInfoOf};
ghost use Rattle.it_rsa_forms.specs.Pkcs1.{IsPkcs1Signature, encoding_of};

use crate::encoded_message::encoded_message;
use it_message::message_sha256;
use std::alloc::{AllocError, Global};

/// What comes before a SHA-256 in its DigestInfo (RFC 8017, section 9.2, note 1).
const DIGEST_HEAD: [u8; 19] = [
    48, 49, 48, 13, 6, 9, 96, 134, 72, 1, 101, 3, 4, 2, 1, 5, 0, 4, 32,
];

/// Whether a signature is one of the message by RSASSA-PKCS1-v1_5 with SHA-256 (RFC 8017, section
/// 8.2.2).
///
/// `info` is the SubjectPublicKeyInfo of a key that `it_rsa` takes: by any other bytes there is no
/// signature.
///
/// # Errors
///
/// `AllocError` where memory was refused.
pub fn is_pkcs1_signature(
    alloc: Global,
    info: &[u8],
    message: &[u8],
    signature: &[u8],
) -> Result<bool, AllocError>
    ensures { IfOk result (λ is. IsTrue is ↔ ((key : Key) × IsInfoOf info.now key
        × IsPkcs1Signature key message.now signature.now)) }
{
    let Some(em) = encoded_message(alloc, info, signature)? else {
        return Ok(false);
    };
    is_encoding(alloc, &message_sha256(&[message]), em.as_slice())
}

/// Whether bytes are the encoding of a message with that digest.
fn is_encoding(alloc: Global, digest: &[u8; 32], em: &[u8]) -> Result<bool, AllocError>
    requires { 54 ≤ length em.now }
    ensures { IfOk result (λ is. IsTrue is ↔ (em.now ≡ encoding_of digest.now (length em.now))) }
{
    let wanted = encoding_of(alloc, digest, em.len())?;
    Ok(em == wanted.as_slice())
}

/// The encoding EMSA-PKCS1-v1_5 of a message with that digest, in so many bytes.
#[tactic(auto, unfolding(crate::specs::Pkcs1::encoding_of))]
fn encoding_of(alloc: Global, digest: &[u8; 32], size: usize) -> Result<Vec<u8>, AllocError>
    requires { 54 ≤ size }
    ensures { IfOk result (λ em. em.items ≡ encoding_of digest.now size) }
{
    let mut em = Vec::from_slice(alloc, &[0, 1])?;
    push_padding(&mut em, size - 54)?;
    em.push(0)?;
    em.extend_from_slice(DIGEST_HEAD.as_slice())?;
    em.extend_from_slice(digest)?;
    Ok(em)
}

/// Appends so many bytes of 255.
fn push_padding(em: &mut Vec<u8>, count: usize) -> Result<(), AllocError>
    ensures { OnOk result (em.new.items ≡ em.old.items ++ replicate count 255) }
{
    for place in 0..count {
        em.push(255)?;
    }
    Ok(())
}
