//! Leaves: the certificates of keys that sign artifacts.
ghost use Rattle.std.specs.Prelude.{◌≡◌, ◌↔◌, ℕ, List, MatchOption, MatchResult, IfOk, IsTrue};
ghost use Rattle.std.specs.Prelude.{true};
ghost use Rattle.it_certificate.specs.Certificate.{Facts, facts_of};
ghost use Rattle.it_certificate.specs.Leaf.{HasName, IsLeaf, IsNoAuthority, LeafOf, SignsCode};
ghost use Rattle.it_certificate.specs.LeafMisses.{CertificateMisses, IsNoLeaf, LeafMisses};
ghost use Rattle.it_certificate.specs.Parts.{parts_of, signed_bytes};
ghost use Rattle.it_certificate.specs.declared.subject_key.Curve.TheVariants.{P256};

use crate::certificate::{Certificate, certificate_or_shortfall};
use crate::constraints::Constraints;
use crate::identifiers::{NEW_ISSUER, OLD_ISSUER, SUBJECT_NAME};
use crate::issuer::issuer_of;
use crate::leaf_shortfall::LeafShortfall;
use crate::name::read_name;
use crate::purposes::Purposes;
use crate::subject_key::Curve;
use crate::usage::Usage;
use crate::values::value_of;
use std::alloc::{AllocError, Global};

/// Whom a leaf names.
#[derive(Drop)]
pub struct Identity<'b> {
    /// The subject's name: a URI, an address of mail, or a name of Fulcio's own kind.
    pub name: &'b [u8],
    /// Who said that the subject has that name.
    pub issuer: &'b [u8],
}

/// The certificate of a key that signs artifacts.
#[derive(Drop)]
pub struct Leaf<'b> {
    /// The certificate.
    pub certificate: Certificate<'b>,
    /// Whom it names.
    pub identity: Identity<'b>,
}

/// The leaf that the bytes are: a certificate of a key of P-256, for signatures and for code, that
/// is no authority's and has one name and one issuer; or the first condition that they miss.
///
/// # Errors
///
/// `AllocError` where memory was refused.
pub fn read_leaf(alloc: Global, bytes: &[u8]) -> Result<Result<Leaf<'_>, LeafShortfall>, AllocError>
    ensures { IfOk result (λ read. MatchResult read
        (λ l. LeafOf bytes.now (facts_of l.certificate) l.identity.name.now l.identity.issuer.now
        × (l.certificate.parts.signed.now ≡ signed_bytes (parts_of l.certificate.parts)))
        (λ missed. IsNoLeaf bytes.now × LeafMisses bytes.now missed)) }
{
    let certificate = match certificate_or_shortfall(alloc, bytes)? {
        Ok(certificate) => certificate,
        Err(missed) => return Ok(Err(LeafShortfall::Certificate(missed))),
    };
    match identity_of(alloc, &certificate)? {
        Ok(identity) => Ok(Ok(Leaf {
            certificate,
            identity,
        })),
        Err(missed) => Ok(Err(missed)),
    }
}

/// Whom a certificate names, where it is a leaf, or the first condition that it misses.
fn identity_of<'b>(
    alloc: Global,
    certificate: &Certificate<'b>,
) -> Result<Result<Identity<'b>, LeafShortfall>, AllocError>
    ensures { IfOk result (λ named. MatchResult named
        (λ i. IsLeaf (facts_of certificate.now) i.name.now i.issuer.now)
        (λ missed. CertificateMisses (facts_of certificate.now) missed)) }
{
    if let Err(missed) = signs_code(certificate) {
        return Ok(Err(missed));
    }
    let Some(name) = name_in(alloc, certificate)? else {
        return Ok(Err(LeafShortfall::Name));
    };
    let old = value_of(&certificate.extensions, &OLD_ISSUER);
    let new = value_of(&certificate.extensions, &NEW_ISSUER);
    match issuer_of(old, new) {
        Some(issuer) => Ok(Ok(Identity { name, issuer })),
        None => Ok(Err(LeafShortfall::Issuer)),
    }
}

/// The one name of a certificate; `None` where it has none, or more than one.
fn name_in<'b>(alloc: Global, certificate: &Certificate<'b>) -> Result<Option<&'b [u8]>, AllocError>
    ensures { IfOk result (λ found. MatchOption found
        ((name : List ℕ) → HasName (facts_of certificate.now) name → ⊥)
        (λ name. HasName (facts_of certificate.now) name.now)) }
{
    match value_of(&certificate.extensions, &SUBJECT_NAME) {
        Some(value) => read_name(alloc, value),
        None => Ok(None),
    }
}

/// That a certificate is that of a key of P-256 for signatures of code, and of no authority.
///
/// # Errors
///
/// The first of these conditions that it misses.
fn signs_code(certificate: &Certificate<'_>) -> Result<(), LeafShortfall>
    ensures { MatchResult result (λ _. SignsCode (facts_of certificate.now))
        (λ missed. CertificateMisses (facts_of certificate.now) missed) }
{
    if !is_p256(certificate.key.curve) {
        return Err(LeafShortfall::Key);
    }
    if !signs(certificate.known.usage) {
        return Err(LeafShortfall::Usage);
    }
    if !is_for_code(certificate.known.purposes) {
        return Err(LeafShortfall::Purpose);
    }
    if !is_no_authority(certificate.known.constraints) {
        return Err(LeafShortfall::Authority);
    }
    Ok(())
}

fn is_p256(curve: Curve) -> bool
    ensures { IsTrue result ↔ (curve ≡ P256) }
{
    matches!(curve, Curve::P256)
}

fn signs(usage: Option<Usage>) -> bool
    ensures { IsTrue result ↔ MatchOption usage ⊥ (λ u. u.signs ≡ true) }
{
    match usage {
        Some(usage) => usage.signs,
        None => false,
    }
}

fn is_for_code(purposes: Option<Purposes>) -> bool
    ensures { IsTrue result ↔ MatchOption purposes ⊥ (λ p. p.code_signing ≡ true) }
{
    match purposes {
        Some(purposes) => purposes.code_signing,
        None => false,
    }
}

fn is_no_authority(constraints: Option<Constraints>) -> bool
    ensures { IsTrue result ↔ IsNoAuthority constraints }
{
    match constraints {
        Some(Constraints::Authority(_)) => false,
        Some(Constraints::NoAuthority) | None => true,
    }
}
