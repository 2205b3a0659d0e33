//! The two numbers of a signature.
ghost use Rattle.std.specs.Prelude.{◌≡◌, ℕ, MatchOption};
ghost use Rattle.it_numbers.specs.Bytes.{big};
ghost use Rattle.it_ecdsa_der.specs.Der.{IsSignatureValue};

use crate::integer::integer_at;

const SEQUENCE: u8 = 48;

/// The two numbers of a signature, by their names in the standards, each in bytes, highest first.
#[derive(Drop)]
pub struct SignatureValue<'a> {
    pub r: &'a [u8],
    pub s: &'a [u8],
}

/// The two numbers that the bytes encode as an ECDSA-Sig-Value (RFC 3279, section 2.2.3) in DER:
/// each length and each number in as few bytes as hold it, and nothing after. `None` where the
/// bytes are no such encoding, or are more than 129.
pub fn read_signature_value(bytes: &[u8]) -> Option<SignatureValue<'_>>
    ensures { MatchOption result
        ((r s : ℕ) → IsSignatureValue bytes.now r s → ⊥)
        (λ signature. IsSignatureValue bytes.now (big signature.r.now) (big signature.s.now)) }
{
    if bytes.len() < 2 {
        return None;
    }
    if bytes[0] != SEQUENCE {
        return None;
    }
    let long = bytes[1] as usize;
    if long >= 128 {
        return None;
    }
    if bytes.len() != long + 2 {
        return None;
    }
    let Some(first) = integer_at(bytes, 2) else {
        return None;
    };
    let Some(second) = integer_at(bytes, first.end) else {
        return None;
    };
    if second.end != bytes.len() {
        return None;
    }
    Some(SignatureValue {
        r: first.number,
        s: second.number,
    })
}
