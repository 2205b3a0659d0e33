//! Whole certificates.
ghost use Rattle.std.specs.Prelude.{◌≡◌, ℕ, List, MatchOption, IfOk};
ghost use Rattle.it_certificate.specs.Parts.{IsCertificate, Parts, parts_of, signed_bytes};

use crate::front::first_bytes;
use crate::outer::outer_in;
use crate::signed::signed_in;
use it_der::content_of;
use std::alloc::{AllocError, Global};

const SEQUENCE: u8 = 48;

/// The contents of the parts of a certificate (RFC 5280, section 4.1), which are not looked into.
#[derive(Drop)]
pub struct CertificateParts<'b> {
    /// Its serial number, which has some bytes.
    pub serial: &'b [u8],
    /// The algorithm of its signature.
    pub algorithm: &'b [u8],
    /// The name of its issuer.
    pub issuer: &'b [u8],
    /// The first and the last moment at which it is valid.
    pub validity: &'b [u8],
    /// The name of its subject.
    pub subject: &'b [u8],
    /// The subject's public key.
    pub key: &'b [u8],
    /// Its extensions.
    pub extensions: &'b [u8],
    /// The bytes that the signature is of.
    pub signed: &'b [u8],
    /// Its signature.
    pub signature: &'b [u8],
}

/// The certificate that the bytes are, in DER: of version 3, with extensions and without unique
/// identifiers, and with the same algorithm inside and outside. `None` where they are none.
///
/// # Errors
///
/// `AllocError` where memory was refused.
pub fn read_parts(alloc: Global, bytes: &[u8]) -> Result<Option<CertificateParts<'_>>, AllocError>
    ensures { IfOk result (λ found. MatchOption found
        ((p : Parts) (signature : List ℕ) → IsCertificate bytes.now p signature → ⊥)
        (λ c. IsCertificate bytes.now (parts_of c) c.signature.now
        × (c.signed.now ≡ signed_bytes (parts_of c)))) }
{
    let Some(content) = content_of(bytes, SEQUENCE) else {
        return Ok(None);
    };
    let Some(outer) = outer_in(alloc, content)? else {
        return Ok(None);
    };
    let Some(signed) = signed_in(alloc, outer.signed)? else {
        return Ok(None);
    };
    if signed.algorithm != outer.algorithm {
        return Ok(None);
    }
    Ok(Some(CertificateParts {
        serial: signed.serial,
        algorithm: signed.algorithm,
        issuer: signed.issuer,
        validity: signed.validity,
        subject: signed.subject,
        key: signed.key,
        extensions: signed.extensions,
        signed: first_bytes(content),
        signature: outer.signature,
    }))
}
