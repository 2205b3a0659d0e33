//! The certificates of an authority, read.
ghost use Rattle.std.specs.Prelude.{◌≡◌, All, IfOk, MatchResult, map};
ghost use Rattle.std.specs.List.{AllZip};
ghost use Rattle.it_certificate.specs.Certificate.{CertificateOf, facts_of};
ghost use Rattle.it_certificate_log.specs.Bare.{WasRead};
ghost use Rattle.it_root_notes.specs.AuthorityMisses.{IsRead, IsUnread};
ghost use Rattle.it_root_notes.specs.Missing.{MissesFrom};

use it_certificate::{Certificate, CertificateShortfall, certificate_or_shortfall};
use it_trust_root::RawBytes;
use std::alloc::{AllocError, Global};

/// A certificate that is not read.
#[derive(Clone, Copy)]
pub(crate) struct UnreadCertificate {
    /// Its place among those of its authority, from 0.
    pub place: usize,
    /// The condition that its bytes miss.
    pub reason: CertificateShortfall,
}

/// The certificates that the bytes are, each, or the first that is not read.
///
/// # Errors
///
/// `AllocError` where memory was refused.
pub(crate) fn certificates_of(
    alloc: Global,
    listed: &[RawBytes],
) -> Result<Result<Vec<Certificate<'_>>, UnreadCertificate>, AllocError>
    ensures { IfOk result (λ read. MatchResult read
        (λ certificates. AllZip CertificateOf listed.now (map facts_of certificates.items)
        × All WasRead certificates.items)
        (λ unread. MissesFrom IsRead (IsUnread unread.reason) 0 listed.now unread.place)) }
{
    let mut certificates = Vec::new(alloc);
    for (place, raw) in listed.iter().enumerate() {
        match certificate_or_shortfall(alloc, raw.as_slice())? {
            Ok(certificate) => certificates.push(certificate)?,
            Err(reason) => return Ok(Err(UnreadCertificate { place, reason })),
        }
    }
    Ok(Ok(certificates))
}
