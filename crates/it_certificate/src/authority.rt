//! The certificates of an authority.
ghost use Rattle.std.specs.Prelude.{◌≡◌, ◌↔◌, IsTrue, map};
ghost use Rattle.it_certificate.specs.Authority.{AreLinked, AreTied, IsChain, MayIssue};
ghost use Rattle.it_certificate.specs.Authority.{MayIssueFrom};
ghost use Rattle.it_certificate.specs.Certificate.{facts_of};

use crate::algorithm::Algorithm;
use crate::certificate::Certificate;
use crate::issuing::issuing_shortfall;
use crate::subject_key::Curve;

/// Whether the certificates may be those of an authority: there is one, each may issue certificates
/// over those before it, and each names the next as its issuer. Their signatures and their validity
/// are not looked at.
pub fn is_chain(certificates: &[Certificate<'_>]) -> bool
    ensures { IsTrue result ↔ IsChain (map facts_of certificates.now) }
{
    if certificates.is_empty() {
        return false;
    }
    if !may_issue_in_turn(certificates) {
        return false;
    }
    are_linked(certificates)
}

/// Whether an algorithm is that of signatures by keys of this curve.
pub fn are_tied(curve: Curve, algorithm: Algorithm) -> bool
    ensures { IsTrue result ↔ AreTied curve algorithm }
{
    match (curve, algorithm) {
        (Curve::P256, Algorithm::WithSha256) => true,
        (Curve::P384, Algorithm::WithSha384) => true,
        _ => false,
    }
}

fn may_issue_in_turn(certificates: &[Certificate<'_>]) -> bool
    ensures { IsTrue result ↔ MayIssueFrom 0 (map facts_of certificates.now) }
{
    for (place, certificate) in certificates.iter().enumerate() {
        if !may_issue(certificate, place) {
            return false;
        }
    }
    true
}

/// Whether a certificate may issue others, with so many certificates of the authority before it.
fn may_issue(certificate: &Certificate<'_>, place: usize) -> bool
    ensures { IsTrue result ↔ MayIssue place (facts_of certificate.now) }
{
    issuing_shortfall(certificate, place).is_none()
}

fn are_linked(certificates: &[Certificate<'_>]) -> bool
    ensures { IsTrue result ↔ AreLinked (map facts_of certificates.now) }
{
    for place in 1..certificates.len() {
        if !names_next(&certificates[place - 1], &certificates[place]) {
            return false;
        }
    }
    true
}

/// Whether a certificate names another as its issuer.
pub fn names_next(certificate: &Certificate<'_>, next: &Certificate<'_>) -> bool
    ensures { IsTrue result ↔ (certificate.now.parts.issuer.now ≡ next.now.parts.subject.now) }
{
    certificate.parts.issuer == next.parts.subject
}
