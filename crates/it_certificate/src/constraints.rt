//! The value of the extension of basic constraints.
ghost use Rattle.std.specs.Prelude.{MatchOption};
ghost use Rattle.it_certificate.specs.Constraints.{IsConstraints, IsConstraintsContent};

use it_der::content_of;

const SEQUENCE: u8 = 48;

/// What says that the certificate is that of an authority.
const TRUE: [u8; 3] = [1, 1, 255];

/// The same, and what comes before a path length of one byte.
const BEFORE_LENGTH: [u8; 5] = [1, 1, 255, 2, 1];

/// Whether a certificate is that of an authority (RFC 5280, section 4.2.1.9).
#[derive(Clone, Copy)]
pub enum Constraints {
    /// It is not.
    NoAuthority,
    /// It is, with its path length, where it has one.
    Authority(Option<u8>),
}

/// The constraints that the value of an extension is. `None` where it is none, or has a path length
/// above 127.
pub fn read_constraints(value: &[u8]) -> Option<Constraints>
    ensures { MatchOption result ((c : Constraints) → IsConstraints value.now c → ⊥)
        (λ c. IsConstraints value.now c) }
{
    let content = content_of(value, SEQUENCE)?;
    constraints_in(content)
}

/// The constraints that the content of a value is.
fn constraints_in(content: &[u8]) -> Option<Constraints>
    ensures { MatchOption result ((c : Constraints) → IsConstraintsContent c content.now → ⊥)
        (λ c. IsConstraintsContent c content.now) }
{
    if content.is_empty() {
        return Some(Constraints::NoAuthority);
    }
    if content == TRUE.as_slice() {
        return Some(Constraints::Authority(None));
    }
    if content.len() != BEFORE_LENGTH.len() + 1 {
        return None;
    }
    let (before, last) = content.split_at(BEFORE_LENGTH.len());
    if before != BEFORE_LENGTH.as_slice() {
        return None;
    }
    let length = last[0];
    if length < 128 {
        Some(Constraints::Authority(Some(length)))
    } else {
        None
    }
}
