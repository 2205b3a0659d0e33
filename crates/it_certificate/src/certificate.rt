//! Whole certificates.
ghost use Rattle.std.specs.Prelude.{◌≡◌, IfOk, MatchOption, MatchResult};
ghost use Rattle.it_certificate.specs.Certificate.{AreOf, CertificateOf, Facts, facts_of};
ghost use Rattle.it_certificate.specs.CertificateMissed.{BytesMiss, PartsMiss};
ghost use Rattle.it_certificate.specs.Parts.{parts_of, signed_bytes};

use crate::algorithm::{Algorithm, algorithm_in};
use crate::allowed::allowed_in;
use crate::extension::Extension;
use crate::known::Known;
use crate::parts::{CertificateParts, read_parts};
use crate::shortfall::CertificateShortfall;
use crate::subject_key::{SubjectKey, key_in};
use crate::validity::{Validity, validity_in};
use std::alloc::{AllocError, Global};

/// A certificate (RFC 5280, section 4.1).
#[derive(Drop)]
pub struct Certificate<'b> {
    /// Its parts, as bytes.
    pub parts: CertificateParts<'b>,
    /// The algorithm of its signature.
    pub algorithm: Algorithm,
    /// When it is valid.
    pub validity: Validity,
    /// Its subject's key.
    pub key: SubjectKey<'b>,
    /// Its extensions, in order.
    pub extensions: Vec<Extension<'b>>,
    /// What is read of them.
    pub known: Known,
}

/// The certificate that the bytes are. `None` where they are none, or one that is refused:
/// `CertificateShortfall` has the conditions.
///
/// # Errors
///
/// `AllocError` where memory was refused.
pub fn read_certificate(alloc: Global, bytes: &[u8]) -> Result<Option<Certificate<'_>>, AllocError>
    ensures { IfOk result (λ found. MatchOption found
        ((f : Facts) → CertificateOf bytes.now f → ⊥)
        (λ c. CertificateOf bytes.now (facts_of c)
        × (c.parts.signed.now ≡ signed_bytes (parts_of c.parts)))) }
{
    match certificate_or_shortfall(alloc, bytes)? {
        Ok(certificate) => Ok(Some(certificate)),
        Err(_) => Ok(None),
    }
}

/// The certificate that the bytes are, or the first condition that they miss.
///
/// # Errors
///
/// `AllocError` where memory was refused.
pub fn certificate_or_shortfall(
    alloc: Global,
    bytes: &[u8],
) -> Result<Result<Certificate<'_>, CertificateShortfall>, AllocError>
    ensures { IfOk result (λ read. MatchResult read
        (λ c. CertificateOf bytes.now (facts_of c)
        × (c.parts.signed.now ≡ signed_bytes (parts_of c.parts)))
        (BytesMiss bytes.now)) }
{
    match read_parts(alloc, bytes)? {
        Some(parts) => certificate_of(alloc, parts),
        None => Ok(Err(CertificateShortfall::Parts)),
    }
}

/// The certificate that has these parts, or the first condition that they miss.
fn certificate_of<'b>(
    alloc: Global,
    parts: CertificateParts<'b>,
) -> Result<Result<Certificate<'b>, CertificateShortfall>, AllocError>
    ensures { IfOk result (λ read. MatchResult read
        (λ c. AreOf (parts_of parts.entry) (facts_of c) × (c.parts ≡ parts.entry))
        (PartsMiss (parts_of parts.entry))) }
{
    let Some(algorithm) = algorithm_in(parts.algorithm) else {
        return Ok(Err(CertificateShortfall::Algorithm));
    };
    let Some(validity) = validity_in(alloc, parts.validity)? else {
        return Ok(Err(CertificateShortfall::Validity));
    };
    let Some(key) = key_in(parts.key) else {
        return Ok(Err(CertificateShortfall::Key));
    };
    let allowed = match allowed_in(alloc, parts.extensions)? {
        Ok(allowed) => allowed,
        Err(missed) => return Ok(Err(CertificateShortfall::Extensions(missed))),
    };
    Ok(Ok(Certificate {
        parts,
        algorithm,
        validity,
        key,
        extensions: allowed.all,
        known: allowed.known,
    }))
}
