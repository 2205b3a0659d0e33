//! The value of the extension of key usage.
ghost use Rattle.std.specs.Prelude.{ℕ, MatchOption};
ghost use Rattle.it_certificate.specs.Usage.{AreUsageBits, IsUsage, IsUsageContent};

use it_der::content_of;

const BIT_STRING: u8 = 3;

/// What a key may be used for (RFC 5280, section 4.2.1.3), as far as it is looked at.
#[derive(Clone, Copy)]
pub struct Usage {
    /// For signatures of other things than certificates: digitalSignature.
    pub signs: bool,
    /// For signatures of certificates: keyCertSign.
    pub signs_certificates: bool,
}

/// The usage that the value of an extension is. `None` where it is none, or has more than two bytes
/// of bits.
pub(crate) fn read_usage(value: &[u8]) -> Option<Usage>
    ensures { MatchOption result ((u : Usage) → IsUsage value.now u → ⊥)
        (λ u. IsUsage value.now u) }
{
    let content = content_of(value, BIT_STRING)?;
    usage_in(content)
}

fn usage_in(content: &[u8]) -> Option<Usage>
    ensures { MatchOption result ((u : Usage) → IsUsageContent content.now u → ⊥)
        (λ u. IsUsageContent content.now u) }
{
    if content.len() == 2 {
        return usage_of(content[0], content[1], content[1]);
    }
    if content.len() == 3 {
        return usage_of(content[0], content[1], content[2]);
    }
    None
}

/// The usage, by how many bits of the last byte do not count, and by the first and the last byte.
fn usage_of(unused: u8, first: u8, last: u8) -> Option<Usage>
    ensures { MatchOption result ((u : Usage) → AreUsageBits unused first last u → ⊥)
        (λ u. AreUsageBits unused first last u) }
{
    if unused > 7 {
        return None;
    }
    let lowest = 2u8.pow(u32::from(unused));
    if last % lowest != 0 || last / lowest % 2 != 1 {
        return None;
    }
    Some(Usage {
        signs: first / 128 % 2 == 1,
        signs_certificates: first / 4 % 2 == 1,
    })
}
