//! The certificate of a bundle.
ghost use Rattle.std.specs.Prelude.{◌≡◌, IfOk, MatchOption};
ghost use Rattle.it_borrowed.specs.Tree.{as_data};
ghost use Rattle.it_base.specs.Finds.{Finds, FindsAs};
ghost use Rattle.it_bundle.specs.Certificate.{IsBundleCertificate, IsChain, IsFirstOf};
ghost use Rattle.it_bundle.specs.Certificate.{IsInChain, IsRawBytes, IsRead};

use crate::version::BundleVersion;
use it_base::sequence::Sequence;
use it_borrowed::base64_text::base64_part;
use it_borrowed::document::member;
use it_borrowed::items::items_of;
use json::Value;
use std::alloc::{AllocError, Global};

/// Why a bundle has no certificate: the first of these that is true.
#[derive(Clone, Copy, Debug, PartialEq, Eq)]
pub enum NoCertificate {
    /// It names a public key.
    PublicKey,
    /// It has neither a certificate nor a chain.
    Missing,
    /// It has both.
    TwoForms,
    /// It has a chain, in a version that has none.
    Chain,
    /// The bytes of the certificate are missing, or are no base64 text.
    Unreadable,
}

/// The certificate of who signed a bundle.
#[derive(Drop)]
pub enum BundleCertificate {
    /// Its bytes, not looked at yet.
    Bytes(Sequence<u8>),
    /// Why there is none.
    Lacks(NoCertificate),
}

/// The certificate in the material of a bundle of a version.
///
/// # Errors
///
/// `AllocError` where memory was refused.
pub(crate) fn certificate_of(
    alloc: Global,
    version: BundleVersion,
    material: &Value<'_>,
) -> Result<BundleCertificate, AllocError>
    ensures { IfOk result (IsBundleCertificate version (as_data material.now)) }
{
    let key = member(material, "publicKey");
    let alone = member(material, "certificate");
    let chain = member(material, "x509CertificateChain");
    match (key, alone, chain) {
        (Some(_), _, _) => Ok(BundleCertificate::Lacks(NoCertificate::PublicKey)),
        (None, None, None) => Ok(BundleCertificate::Lacks(NoCertificate::Missing)),
        (None, Some(found), None) => certificate_alone(alloc, found),
        (None, None, Some(found)) => certificate_in_chain(alloc, version, found),
        (None, Some(_), Some(_)) => Ok(BundleCertificate::Lacks(NoCertificate::TwoForms)),
    }
}

fn certificate_alone(alloc: Global, alone: &Value<'_>) -> Result<BundleCertificate, AllocError>
    ensures { IfOk result (IsRead (IsRawBytes (as_data alone.now))) }
{
    Ok(read(base64_part(alloc, alone, "rawBytes")?))
}

fn certificate_in_chain(
    alloc: Global,
    version: BundleVersion,
    chain: &Value<'_>,
) -> Result<BundleCertificate, AllocError>
    ensures { IfOk result (IsInChain version (as_data chain.now)) }
{
    match version {
        BundleVersion::V1 | BundleVersion::V2 => Ok(read(first_of_chain(alloc, chain)?)),
        BundleVersion::V3 => Ok(BundleCertificate::Lacks(NoCertificate::Chain)),
    }
}

/// The bytes, or that they do not read.
fn read(bytes: Option<Sequence<u8>>) -> BundleCertificate
    ensures { MatchOption bytes (result ≡ BundleCertificate.Lacks NoCertificate.Unreadable)
        (λ found. result ≡ BundleCertificate.Bytes found) }
{
    match bytes {
        Some(found) => BundleCertificate::Bytes(found),
        None => BundleCertificate::Lacks(NoCertificate::Unreadable),
    }
}

/// The bytes of the first certificate of a chain.
fn first_of_chain(alloc: Global, chain: &Value<'_>) -> Result<Option<Sequence<u8>>, AllocError>
    ensures { IfOk result (Finds (IsChain (as_data chain.now))) }
{
    match first_in(chain) {
        None => Ok(None),
        Some(first) => base64_part(alloc, first, "rawBytes"),
    }
}

fn first_in<'v, 't>(chain: &'v Value<'t>) -> Option<&'v Value<'t>>
    ensures { FindsAs (λ item. as_data item.now) (IsFirstOf (as_data chain.now)) result }
{
    items_of(member(chain, "certificates")?)?.first()
}
