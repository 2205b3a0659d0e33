//! The two numbers of a signature.
ghost use Rattle.std.specs.Prelude.{◌≡◌, ℕ, ◌^◌, ◌<◌, MatchOption};
ghost use Rattle.it_p256_limbs.specs.Numbers.{value_of};
ghost use Rattle.it_ecdsa_der.specs.Der.{IsSignatureValue};

use crate::number::number;
use it_p256_limbs::Limbs;

/// The two numbers of a signature, by their names in the standards.
#[derive(Drop)]
pub struct SignatureValue {
    /// The first number.
    pub r: Limbs,
    /// The second number.
    pub s: Limbs,
}

/// The two numbers that the bytes encode as an ECDSA-Sig-Value (RFC 3279, section 2.2.3) in DER:
/// each length and each number in as few bytes as hold it, and nothing after. `None` where the
/// bytes are no such encoding, or one of a number that is not below 2 ^ 256. Takes no memory.
pub fn read_signature_value(bytes: &[u8]) -> Option<SignatureValue>
    ensures { MatchOption result
        ((r s : ℕ) → r < 2 ^ 256 → s < 2 ^ 256 → IsSignatureValue bytes.now r s → ⊥)
        (λ signature. IsSignatureValue bytes.now (value_of signature.r) (value_of signature.s)) }
{
    let value = it_ecdsa_der::read_signature_value(bytes)?;
    let r = number(value.r)?;
    let s = number(value.s)?;
    Some(SignatureValue { r, s })
}
