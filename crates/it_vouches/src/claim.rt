//! What a bundle brings.
ghost use Rattle.std.specs.Prelude.{◌≡◌, ◌≢◌, ◌⊎◌, [], ◌∷◌, length, map, MatchResult};
ghost use Rattle.it_bundle.specs.declared.certificate.BundleCertificate.TheVariants.{Bytes, Lacks};
ghost use Rattle.it_bundle.specs.declared.entries.BundleEntries.TheVariants.{Listed as Entries};
ghost use Rattle.it_bundle.specs.declared.entries.BundleEntries.TheVariants.{Missing, TooMany};
ghost use Rattle.it_trust_root.specs.declared.root.TrustedRoot.{TrustedRoot};
ghost use Rattle.it_vouches.specs.Claim.{Claims, needs_proof};
ghost use Rattle.it_vouches.specs.Misses.{Misses};

use crate::shortfall::Shortfall;
use it_bundle::{
    BundleCertificate, BundleEntries, BundleVersion, ListedEntry, Material, NoCertificate,
    SigstoreBundle,
};
use it_dsse::envelope::Signature;

/// The one signature of an envelope, and what is said of it.
#[derive(Clone, Copy)]
pub(crate) struct Claim<'b> {
    /// The bytes of the signature.
    pub(crate) signature: &'b [u8],
    /// The certificate of the key that signed, in DER.
    pub(crate) certificate: &'b [u8],
    /// The entries of transparency logs about the signature.
    pub(crate) entries: &'b [ListedEntry],
}

/// What a bundle brings. Takes no memory.
///
/// # Errors
///
/// What it misses: its envelope has no signature or several, or it has no material, no certificate,
/// no entries or too many.
pub(crate) fn claim_of(bundle: &SigstoreBundle) -> Result<Claim<'_>, Shortfall>
    ensures { MatchResult result
        (λ c. Claims bundle.now c.signature.now c.certificate.now c.entries.now)
        (λ missed. (root : TrustedRoot) → Misses root bundle.now missed) }
{
    let signature = only_signature(bundle.envelope.signatures.as_slice())?;
    let Some(material) = &bundle.material else {
        return Err(Shortfall::Material);
    };
    let certificate = match certificate_in(material) {
        Ok(bytes) => bytes,
        Err(reason) => return Err(Shortfall::Certificate(reason)),
    };
    let entries = entries_in(material)?;
    Ok(Claim {
        signature,
        certificate,
        entries,
    })
}

/// Whether an entry of a bundle of this version needs an inclusion proof.
pub(crate) fn needs_proof(version: BundleVersion) -> bool
    ensures { result ≡ needs_proof version }
{
    match version {
        BundleVersion::V1 => false,
        BundleVersion::V2 | BundleVersion::V3 => true,
    }
}

/// The bytes of the signature, where there is one and no other.
fn only_signature(signatures: &[Signature]) -> Result<&[u8], Shortfall>
    ensures { MatchResult result
        (λ bytes. map (λ s. s.sig) signatures.now ≡ bytes.now ∷ [])
        (λ missed. (missed ≡ Shortfall.Signatures (length signatures.now))
        × (length signatures.now ≢ 1)) }
{
    match signatures {
        [only] => Ok(only.sig.as_slice()),
        _ => Err(Shortfall::Signatures(signatures.len())),
    }
}

fn certificate_in(material: &Material) -> Result<&[u8], NoCertificate>
    ensures { MatchResult result
        (λ bytes. material.now.certificate ≡ Bytes bytes.now)
        (λ reason. material.now.certificate ≡ Lacks reason) }
{
    match &material.certificate {
        BundleCertificate::Bytes(bytes) => Ok(bytes.as_slice()),
        BundleCertificate::Lacks(reason) => Err(*reason),
    }
}

fn entries_in(material: &Material) -> Result<&[ListedEntry], Shortfall>
    ensures { MatchResult result
        (λ entries. material.now.entries ≡ Entries entries.now)
        (λ missed. ((missed ≡ Shortfall.NoEntry) × (material.now.entries ≡ Missing))
        ⊎ ((missed ≡ Shortfall.ManyEntries) × (material.now.entries ≡ TooMany))) }
{
    match &material.entries {
        BundleEntries::Listed(entries) => Ok(entries.as_slice()),
        BundleEntries::Missing => Err(Shortfall::NoEntry),
        BundleEntries::TooMany => Err(Shortfall::ManyEntries),
    }
}
