//! The encoding EMSA-PSS with SHA-256 and a salt of 32 bytes (RFC 8017, section 9.1.2).
ghost use Rattle.std.specs.Prelude.{◌≡◌, ℕ, ◌-◌, ◌*◌, ◌^◌, ◌<◌, ◌≤◌, ◌↔◌, ◌++◌, IsTrue, length};
ghost use Rattle.std.specs.Prelude.{replicate, slice_index};
ghost use Rattle.sha2.specs.Sha256.{sha256};
ghost use Rattle.it_rsa.specs.Encoding.{IsEncoded, IsOpened, with_low_bits};
ghost use Rattle.it_rsa.specs.Mask.{mgf1, xored};

use crate::MOST_BYTES;
use crate::mask::unmask;
use sha2::{Digest, Sha256};

/// The last byte of an encoded message.
const TRAILER: u8 = 0xbc;

fn all_zero(bytes: &[u8]) -> bool
    ensures { IsTrue result ↔ ((k : ℕ) → k < length bytes.now → slice_index bytes.now k ≡ 0) }
{
    bytes.iter().all(|byte| *byte == 0)
}

/// The digest of eight zeros, a digest and its salt.
fn salted(digest: &[u8; 32], salt: &[u8]) -> [u8; 32]
    ensures { result ≡ sha256 (replicate 8 0 ++ digest.now ++ salt.now) }
{
    let zeros: [u8; 8] = [0; 8];
    let mut hasher = Sha256::new();
    hasher.update(&zeros);
    hasher.update(digest);
    hasher.update(salt);
    hasher.finalize()
}

/// Opens DB: takes its mask off, and clears its first bit.
fn open_data(bytes: &mut [u8], seed: &[u8])
    requires some { 0 < length bytes.old }
    requires room { length bytes.old ≤ 512 }
    ensures { bytes.new ≡ with_low_bits 7 (xored bytes.old (mgf1 seed.now (length bytes.old))) }
{
    unmask(bytes, seed);
    bytes[0] %= 128;
}

/// The place of the 1 in DB, which the salt of 32 bytes follows.
fn mark_place(bytes: &[u8]) -> usize
    requires { 33 ≤ length bytes.now }
    ensures { result ≡ length bytes.now - 33 }
{
    bytes.len() - 33
}

/// Whether DB has its zeros, its 1 and the salt that goes with the digest H.
fn is_opened(digest: &[u8; 32], bytes: &[u8], hash: &[u8]) -> bool
    requires { 33 ≤ length bytes.now }
    ensures { IsTrue result ↔ IsOpened digest.now bytes.now hash.now }
{
    let mark = mark_place(bytes);
    if !all_zero(&bytes[..mark]) {
        return false;
    }
    if bytes[mark] != 1 {
        return false;
    }
    let again = salted(digest, &bytes[mark + 1..]);
    again.as_slice() == hash
}

/// Whether the first bit, which an encoded message has no room for, is clear.
fn is_first_bit_clear(em: &[u8]) -> bool
    requires { 0 < length em.now }
    ensures { IsTrue result ↔ (slice_index em.now 0 < 2 ^ 7) }
{
    em[0] < 128
}

/// Whether the bytes encode the message of a digest in all their bits but the first.
pub(crate) fn is_encoded(digest: &[u8; 32], em: &[u8]) -> bool
    requires room { 66 ≤ length em.now }
    requires most { length em.now ≤ 512 }
    ensures { IsTrue result ↔ IsEncoded digest.now em.now (8 * length em.now - 1) }
{
    let size = em.len() - 33;
    if em[em.len() - 1] != TRAILER {
        return false;
    }
    if !is_first_bit_clear(em) {
        return false;
    }
    let hash = &em[size..size + 32];
    let mut room = [0; MOST_BYTES];
    let bytes = &mut room[..size];
    bytes.copy_from_slice(&em[..size]);
    open_data(bytes, hash);
    is_opened(digest, bytes, hash)
}
