//! What certificates that are read lack to be those of an authority.
ghost use Rattle.std.specs.Prelude.{◌≡◌, ◌≤◌, All, IfOk, MatchOption, map};
ghost use Rattle.it_certificate.specs.Authority.{
  AreLinked,
  AreSignedInTurn,
  IsSignedBy,
  MayIssue,
  MayIssueFrom,
};
ghost use Rattle.it_certificate.specs.Certificate.{facts_of};
ghost use Rattle.it_certificate_log.specs.Bare.{WasRead};
ghost use Rattle.it_issued.specs.Signature.{Signs};
ghost use Rattle.it_root_notes.specs.AuthorityMisses.{IsBarred, Names};
ghost use Rattle.it_root_notes.specs.Missing.{MissesFrom, MissesNext};

use it_budget::Budget;
use it_certificate::{Certificate, IssuingShortfall, issuing_shortfall, names_next};
use it_issued::is_signed_by;
use std::alloc::{AllocError, Global};

/// A certificate that may not issue others.
#[derive(Clone, Copy)]
pub(crate) struct BarredCertificate {
    /// Its place among those of its authority, from 0.
    pub place: usize,
    /// The condition that it misses.
    pub reason: IssuingShortfall,
}

/// The place of the first certificate that names another issuer than the next one's subject. Takes
/// no memory.
pub(crate) fn first_other_issuer(certificates: &[Certificate<'_>]) -> Option<usize>
    ensures { MatchOption result (AreLinked (map facts_of certificates.now))
        (MissesNext Names (map facts_of certificates.now)) }
{
    for place in 1..certificates.len() {
        if !names_next(&certificates[place - 1], &certificates[place]) {
            return Some(place - 1);
        }
    }
    None
}

/// The first certificate that may not issue others, each with those before it. Takes no memory.
pub(crate) fn first_barred(certificates: &[Certificate<'_>]) -> Option<BarredCertificate>
    ensures { MatchOption result (MayIssueFrom 0 (map facts_of certificates.now))
        (λ barred. MissesFrom MayIssue (IsBarred barred.reason) 0
        (map facts_of certificates.now) barred.place) }
{
    for (place, certificate) in certificates.iter().enumerate() {
        if let Some(reason) = issuing_shortfall(certificate, place) {
            return Some(BarredCertificate { place, reason });
        }
    }
    None
}

/// The place of the first certificate that is not signed by the key of the next one.
///
/// # Errors
///
/// `AllocError` where memory was refused, or where the budget has no check left.
pub(crate) fn first_unsigned(
    alloc: Global,
    budget: &mut Budget,
    certificates: &[Certificate<'_>],
) -> Result<Option<usize>, AllocError>
    requires { All WasRead certificates.now }
    ensures answer { IfOk result (λ found. MatchOption found
        (AreSignedInTurn Signs (map facts_of certificates.now))
        (MissesNext (IsSignedBy Signs) (map facts_of certificates.now))) }
    ensures most { budget.new.most ≡ budget.old.most }
    ensures grows { budget.old.checked ≤ budget.new.checked }
{
    for place in 1..certificates.len() {
        if !is_signed_by(
            alloc,
            budget,
            &certificates[place - 1],
            &certificates[place],
        )? {
            return Ok(Some(place - 1));
        }
    }
    Ok(None)
}
