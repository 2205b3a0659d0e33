//! Signatures of RSASSA-PSS (RFC 8017, section 8.1.2) with SHA-256 and a salt of any length.
ghost use Rattle.std.specs.Prelude.{◌≡◌, ◌<◌, ◌≤◌, ◌+◌, ◌-◌, ◌*◌, ◌^◌, ◌↔◌, ◌≢◌, ℕ, IfOk, IfSome};
ghost use Rattle.std.specs.Prelude.{IsTrue, List, MatchOption, length, slice_index};
ghost use Rattle.it_rsa.specs.Encoding.{data_of, with_low_bits};
ghost use Rattle.it_rsa.specs.Key.{Key};
ghost use Rattle.it_rsa.specs.Mask.{mgf1, xored};
ghost use Rattle.it_rsa_forms.specs.Info.{IsInfoOf};
ghost use Rattle.it_rsa_forms.specs.Pss.{IsEncodedOfSalt, IsOpenedOfSalt, IsPssOfSalt};

use crate::encoded_message::encoded_message;
use it_message::message_sha256;
use it_rsa::unmask;
use std::alloc::{AllocError, Global};

/// The last byte of an encoded message.
const TRAILER: u8 = 0xbc;

/// How long the salt is with which a signature is one of the message by RSASSA-PSS with SHA-256
/// and MGF1 with SHA-256 (RFC 8017, section 8.1.2), or `None` where it is none with any salt.
///
/// `info` is the SubjectPublicKeyInfo of a key that `it_rsa` takes: by any other bytes there is no
/// signature.
///
/// # Errors
///
/// `AllocError` where memory was refused.
pub fn pss_salt(
    alloc: Global,
    info: &[u8],
    message: &[u8],
    signature: &[u8],
) -> Result<Option<usize>, AllocError>
    ensures { IfOk result (λ found. MatchOption found
        ((key : Key) (salt : ℕ) → IsInfoOf info.now key
        → IsPssOfSalt key message.now signature.now salt → ⊥)
        (λ salt. (key : Key) × IsInfoOf info.now key
        × IsPssOfSalt key message.now signature.now salt)) }
{
    let Some(em) = encoded_message(alloc, info, signature)? else {
        return Ok(None);
    };
    salt_in(alloc, &message_sha256(&[message]), em.as_slice())
}

/// The length of the salt of an encoded message, if it encodes the message of this digest in all
/// its bits but the first.
fn salt_in(alloc: Global, digest: &[u8; 32], em: &[u8]) -> Result<Option<usize>, AllocError>
    requires room { 34 ≤ length em.now }
    requires most { length em.now ≤ 512 }
    ensures { IfOk result (λ found. let bits = 8 * length em.now - 1 in MatchOption found
        ((salt : ℕ) → IsEncodedOfSalt salt digest.now em.now bits → ⊥)
        (λ salt. IsEncodedOfSalt salt digest.now em.now bits)) }
{
    let size = em.len() - 33;
    if em[em.len() - 1] != TRAILER {
        return Ok(None);
    }
    if em[0] >= 128 {
        return Ok(None);
    }
    let hash = &em[size..size + 32];
    let opened = opened_data(alloc, &em[..size], hash)?;
    Ok(opened_salt(digest, opened.as_slice(), hash))
}

/// DB, of which what is under the mask is given, and H, from which the mask is made.
fn opened_data(alloc: Global, masked: &[u8], hash: &[u8]) -> Result<Vec<u8>, AllocError>
    requires some { 0 < length masked.now }
    requires room { length masked.now ≤ 512 }
    ensures bytes { IfOk result (λ opened. opened.items
        ≡ with_low_bits 7 (xored masked.now (mgf1 hash.now (length masked.now)))) }
    ensures long { IfOk result (λ opened. length opened.items ≡ length masked.now) }
{
    let mut bytes = Vec::from_slice(alloc, masked)?;
    open_data(bytes.as_mut_slice(), hash);
    Ok(bytes)
}

/// Opens DB: takes its mask off, and clears its first bit.
fn open_data(bytes: &mut [u8], seed: &[u8])
    requires some { 0 < length bytes.old }
    requires room { length bytes.old ≤ 512 }
    ensures { bytes.new ≡ with_low_bits 7 (xored bytes.old (mgf1 seed.now (length bytes.old))) }
{
    unmask(bytes, seed);
    bytes[0] %= 128;
}

/// The length of the salt in DB, if DB has its zeros and its 1, and the salt goes with the digest
/// H.
fn opened_salt(digest: &[u8; 32], bytes: &[u8], hash: &[u8]) -> Option<usize>
    ensures { MatchOption result
        ((salt : ℕ) → salt + 1 ≤ length bytes.now
        → IsOpenedOfSalt salt digest.now bytes.now hash.now → ⊥)
        (λ salt. (salt + 1 ≤ length bytes.now)
        × IsOpenedOfSalt salt digest.now bytes.now hash.now) }
{
    let mark = mark_place(bytes)?;
    if bytes[mark] != 1 {
        return None;
    }
    let salt = &bytes[mark + 1..];
    let again = message_sha256(&[&[0; 8], digest, salt]);
    if again.as_slice() == hash {
        Some(salt.len())
    } else {
        None
    }
}

/// The place of the first byte that is not zero.
fn mark_place(bytes: &[u8]) -> Option<usize>
    ensures { MatchOption result
        ((k : ℕ) → k < length bytes.now → slice_index bytes.now k ≡ 0)
        (λ place. (place < length bytes.now) × (slice_index bytes.now place ≢ 0)
        × ((k : ℕ) → k < place → slice_index bytes.now k ≡ 0)) }
{
    bytes.iter().position(|byte| *byte != 0)
}
