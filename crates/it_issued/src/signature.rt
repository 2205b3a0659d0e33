//! Signatures of certificates.
ghost use Rattle.std.specs.Prelude.{◌≡◌, ◌↔◌, ◌+◌, ◌≤◌, IfOk, IsTrue, OnErr, OnOk};
ghost use Rattle.it_certificate.specs.Authority.{AreTied, IsSignedBy};
ghost use Rattle.it_certificate.specs.Certificate.{facts_of};
ghost use Rattle.it_certificate_log.specs.Bare.{WasRead};
ghost use Rattle.it_issued.specs.Signature.{IsByP256, IsByP384, Signs, SignsFor, key_info};

use it_budget::Budget;
use it_certificate::{Certificate, Curve, are_tied};
use it_der::append_element;
use std::alloc::{AllocError, Global};

const SEQUENCE: u8 = 48;

/// Whether a certificate is signed by the key of another (RFC 5280, section 4.1.1.3): with SHA-256
/// by one of P-256, and with SHA-384 by one of P-384. A key whose point is not on its curve signed
/// nothing. It takes one check, and none where the key's curve is not that of the algorithm.
///
/// # Errors
///
/// `AllocError` where memory was refused, or where the budget has no check left.
pub fn is_signed_by(
    alloc: Global,
    budget: &mut Budget,
    certificate: &Certificate<'_>,
    issuer: &Certificate<'_>,
) -> Result<bool, AllocError>
    requires certificate_read { WasRead certificate.now }
    requires issuer_read { WasRead issuer.now }
    ensures answer { IfOk result (λ is. IsTrue is
        ↔ IsSignedBy Signs (facts_of certificate.now) (facts_of issuer.now)) }
    ensures most { budget.new.most ≡ budget.old.most }
    ensures grows { budget.old.checked ≤ budget.new.checked }
    ensures checked { AreTied issuer.now.key.curve certificate.now.algorithm
        → OnOk result (budget.new.checked ≡ budget.old.checked + 1) }
    ensures kept { OnErr result (budget.new.checked ≡ budget.old.checked) }
    ensures untied { ¬ AreTied issuer.now.key.curve certificate.now.algorithm
        → budget.new.checked ≡ budget.old.checked }
{
    if !are_tied(issuer.key.curve, certificate.algorithm) {
        return Ok(false);
    }
    let info = key_info(alloc, issuer)?;
    budget.take()?;
    Ok(is_by(
        issuer.key.curve,
        info.as_slice(),
        certificate.parts.signed,
        certificate.parts.signature,
    ))
}

/// The key of a certificate, as a SubjectPublicKeyInfo (RFC 5480, section 2).
///
/// # Errors
///
/// `AllocError` where memory was refused.
pub(crate) fn key_info(alloc: Global, certificate: &Certificate<'_>) -> Result<Vec<u8>, AllocError>
    requires { WasRead certificate.now }
    ensures { IfOk result (λ info. info.items
        ≡ key_info certificate.now.key.curve certificate.now.key.coordinates.now) }
{
    let mut info = Vec::new(alloc);
    append_element(&mut info, SEQUENCE, certificate.parts.key)?;
    Ok(info)
}

/// Whether a signature of a text is by the key of this curve and SubjectPublicKeyInfo.
fn is_by(curve: Curve, info: &[u8], text: &[u8], signature: &[u8]) -> bool
    ensures { IsTrue result ↔ SignsFor curve info.now text.now signature.now }
{
    match curve {
        Curve::P256 => is_by_p256(info, text, signature),
        Curve::P384 => is_by_p384(info, text, signature),
    }
}

fn is_by_p256(info: &[u8], text: &[u8], signature: &[u8]) -> bool
    ensures { IsTrue result ↔ IsByP256 info.now text.now signature.now }
{
    match it_p256::PublicKey::from_info(info) {
        Some(key) => it_p256::is_signature(&key, &[text], signature),
        None => false,
    }
}

fn is_by_p384(info: &[u8], text: &[u8], signature: &[u8]) -> bool
    ensures { IsTrue result ↔ IsByP384 info.now text.now signature.now }
{
    match it_p384::PublicKey::from_info(info) {
        Some(key) => it_p384::is_signature(&key, &[text], signature),
        None => false,
    }
}
