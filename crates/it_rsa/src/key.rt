//! Public keys.
ghost use Rattle.std.specs.Prelude.{◌≡◌, ◌*◌, ◌%◌, ◌^◌, ◌<◌, ◌≤◌, ◌↔◌, IsTrue, length, slice_index};
ghost use Rattle.std.specs.Prelude.{MatchOption};
ghost use Rattle.it_numbers.specs.Bytes.{big, big_bytes};
ghost use Rattle.it_rsa.specs.Info.{info_of, integer_length, exponent_bytes};
ghost use Rattle.it_rsa.specs.Key.{Key, IsKey};
ghost use Rattle.it_rsa.specs.Signature.{representative};

use crate::info::key_parts;
use it_rsa_number::modulus::Modulus;
use std::marker::Model;

/// A public key. Its value is the modulus and the exponent, so two keys with the same numbers are
/// the same key, and one modulus with two exponents is two keys. It holds its numbers itself, and
/// takes no memory.
#[derive(Drop)]
pub struct PublicKey {
    modulus: Modulus,
    exponent: u32,
}

impl Model for PublicKey {
    ghost use Rattle.it_rsa.specs.Key.{Key, IsKey};

    ghost Value = { Key };

    ghost view = { λ key. record { modulus = key.modulus; exponent = key.exponent } };

    ghost invariant = { λ key. IsKey (record { modulus = key.modulus; exponent = key.exponent }) };
}

impl PublicKey {
    /// The key that the bytes encode as a SubjectPublicKeyInfo (RFC 5280, section 4.1.2.7) with the
    /// algorithm rsaEncryption and NULL (RFC 3279, section 2.3.1), in DER. `None` where they encode
    /// no such key: with a modulus that is even, or whose number of bits is below 2,048, above
    /// 4,096 or no multiple of 8; with an exponent that is even, below 3, or 2 ^ 31 or more; with
    /// another algorithm; in an encoding that is not the shortest; or with anything after.
    pub fn from_info(info: &[u8]) -> Option<PublicKey>
        ensures { MatchOption result
            ((key : Key) → IsKey key → info.now ≡ info_of key → ⊥)
            (λ key. IsKey key × (info.now ≡ info_of key)) }
    {
        let Some(parts) = key_parts(info) else {
            return None;
        };
        key_of(parts.modulus, parts.exponent)
    }

    /// A law: each key is one that this profile takes. It does nothing.
    pub fn is_taken(&self)
        ensures { IsKey self.now }
    {
        let _ = &self.exponent;
    }

    /// Whether this is the same key as the other. Takes no memory.
    pub fn is_same(&self, other: &PublicKey) -> bool
        ensures { IsTrue result ↔ (self.now ≡ other.now) }
    {
        self.exponent == other.exponent && self.modulus.is_same(&other.modulus)
    }

    /// How many bytes the modulus has, and so each signature.
    pub fn size(&self) -> usize
        ensures value { result ≡ length self.now.modulus }
        ensures least { 256 ≤ result }
        ensures most { result ≤ 512 }
    {
        self.modulus.size()
    }

    /// Whether the number of a signature is below the modulus.
    pub(crate) fn is_above(&self, signature: &[u8]) -> bool
        requires { length signature.now ≡ length self.now.modulus }
        ensures { IsTrue result ↔ (big signature.now < big self.now.modulus) }
    {
        self.modulus.is_above(signature)
    }

    /// Replaces a signature by its message representative (RFC 8017, section 5.2.2).
    pub(crate) fn open(&self, signature: &mut [u8])
        requires { length signature.old ≡ length self.now.modulus }
        ensures { signature.new ≡ big_bytes (length self.now.modulus)
            (representative self.now signature.old) }
    {
        self.modulus.raise(signature, self.exponent);
    }
}

/// The number of at most four bytes, the first of which counts most.
pub fn exponent_number(bytes: &[u8]) -> u32
    requires { length bytes.now ≤ 4 }
    ensures { result ≡ big bytes.now }
{
    let mut number: u64 = 0;
    for i in 0..bytes.len() {
        number = 256 * number + bytes[i] as u64;
    }
    number as u32
}

/// The fewest bytes that hold the number with a first bit that is 0.
fn integer_size(number: u32) -> usize
    ensures { result ≡ integer_length number }
{
    if number < 1 << 7 {
        1
    } else if number < 1 << 15 {
        2
    } else if number < 1 << 23 {
        3
    } else {
        4
    }
}

/// Whether the bytes are the modulus of a key.
fn is_modulus(bytes: &[u8]) -> bool
    requires { 0 < length bytes.now }
    ensures { IsTrue result ↔ ((128 ≤ slice_index bytes.now 0) × (big bytes.now % 2 ≡ 1)) }
{
    bytes[0] >= 128 && bytes[bytes.len() - 1] % 2 == 1
}

/// Whether the number is the exponent of a key.
fn is_exponent(number: u32) -> bool
    ensures { IsTrue result ↔ ((number % 2 ≡ 1) × (3 ≤ number) × (number < 2 ^ 31)) }
{
    number % 2 == 1 && number >= 3 && number < 1 << 31
}

/// The key of these two numbers.
fn key_of(modulus: &[u8], exponent: &[u8]) -> Option<PublicKey>
    requires least { 256 ≤ length modulus.now }
    requires most { length modulus.now ≤ 512 }
    requires short { length exponent.now ≤ 4 }
    ensures { MatchOption result
        ((key : Key) → IsKey key → modulus.now ≡ key.modulus → exponent.now ≡ exponent_bytes
        key.exponent → ⊥)
        (λ key. IsKey key × (modulus.now ≡ key.modulus)
        × (exponent.now ≡ exponent_bytes key.exponent)) }
{
    if !is_modulus(modulus) {
        return None;
    }
    let number = exponent_number(exponent);
    if !is_exponent(number) {
        return None;
    }
    if exponent.len() != integer_size(number) {
        return None;
    }
    Some(PublicKey {
        modulus: Modulus::from_bytes(modulus),
        exponent: number,
    })
}
