//! Whether a certificate may issue others, or which condition it misses.
ghost use Rattle.std.specs.Prelude.{MatchOption};
ghost use Rattle.it_certificate.specs.Authority.{MayIssue};
ghost use Rattle.it_certificate.specs.Certificate.{facts_of};
ghost use Rattle.it_certificate.specs.IssuingMisses.{IssuingMisses};

use crate::certificate::Certificate;
use crate::constraints::Constraints;

/// The condition that a certificate misses where it may not issue others: the first of these that
/// is true.
#[derive(Clone, Copy, Debug, PartialEq, Eq)]
pub enum IssuingShortfall {
    /// It does not have the basic constraints of an authority.
    Authority,
    /// Its path length is less than the number of certificates of the authority before it.
    Length,
    /// It is not for signing certificates.
    Usage,
    /// It has purposes, and neither code signing nor any purpose is among them.
    Purpose,
}

/// The condition that a certificate misses to issue others, with so many certificates of the
/// authority before it. `None` where it may issue them.
pub fn issuing_shortfall(certificate: &Certificate<'_>, place: usize) -> Option<IssuingShortfall>
    ensures { MatchOption result (MayIssue place (facts_of certificate.now))
        (IssuingMisses place (facts_of certificate.now)) }
{
    let Some(Constraints::Authority(length)) = certificate.known.constraints else {
        return Some(IssuingShortfall::Authority);
    };
    if let Some(most) = length
        && usize::from(most) < place
    {
        return Some(IssuingShortfall::Length);
    }
    let Some(usage) = certificate.known.usage else {
        return Some(IssuingShortfall::Usage);
    };
    if !usage.signs_certificates {
        return Some(IssuingShortfall::Usage);
    }
    match certificate.known.purposes {
        Some(purposes) if !purposes.code_signing && !purposes.any => {
            Some(IssuingShortfall::Purpose)
        }
        _ => None,
    }
}
