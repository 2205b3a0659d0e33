//! Which builder the provenance names, and its level.
ghost use Rattle.std.specs.Prelude.{◌≡◌, ◌≤◌, ◌↔◌, ◌⊎◌, List, ℕ, Any, IfOk, IfSome, IsTrue, Some};
ghost use Rattle.it_digest.specs.declared.compare.DigestSet.{DigestSet};
ghost use Rattle.it_dsse.specs.Panel.{Panel};
ghost use Rattle.it_dsse.specs.declared.envelope.Envelope.{Envelope};
ghost use Rattle.it_docs.specs.declared.policy.Expectation.{Expectation};
ghost use Rattle.it_prov.specs.Best.{IsGreatest};
ghost use Rattle.it_prov_notes.specs.ProvenanceNotes.{IsProvenanceOn, Misses};
ghost use Rattle.it_prov_notes.specs.inside.Judged.{AreSigners, HasLevel};

use crate::note::Shortfall;
use it_base::text::Text;
use it_docs::policy::{Builder, Expectation};
use it_docs::statement::Provenance;
use std::alloc::{AllocError, Global};

/// Whether the provenance names a builder other than those that signed.
pub(crate) fn other_builder(
    alloc: Global,
    provenance: &Provenance,
    signers: &[&Builder],
) -> Result<Option<Shortfall>, AllocError>
    ensures { (panel : Panel) (expectation : Expectation) (digests : DigestSet) (line : List ℕ)
        (envelope : Envelope) → IsProvenanceOn line envelope provenance.now
        → AreSigners panel expectation envelope signers.now
        → IfOk result (λ found. IfSome found (Misses panel expectation digests line)) }
{
    let found = provenance.builder.as_str();
    if some_has_id(signers, found) {
        return Ok(None);
    }
    let Some(signer) = signers.first() else {
        return Ok(None);
    };
    Ok(Some(Shortfall::OtherBuilder {
        found: Text::copy(alloc, found)?,
        wanted: Text::copy(alloc, signer.id.as_str())?,
    }))
}

fn some_has_id(signers: &[&Builder], id: &str) -> bool
    ensures { IsTrue result ↔ Any (λ builder. builder.now.id ≡ id.now) signers.now }
{
    signers.iter().any(|builder| builder.id.as_str() == id)
}

/// Whether each signing builder that the provenance names has too low a level: the greatest of
/// these levels is given then.
pub(crate) fn low_level(
    provenance: &Provenance,
    expectation: &Expectation,
    signers: &[&Builder],
) -> Option<Shortfall>
    ensures { (panel : Panel) (digests : DigestSet) (line : List ℕ) (envelope : Envelope)
        → IsProvenanceOn line envelope provenance.now
        → AreSigners panel expectation.now envelope signers.now
        → IfSome result (Misses panel expectation.now digests line) }
{
    let wanted = expectation.level;
    let Some(found) = greatest_level(signers, provenance.builder.as_str()) else {
        return None;
    };
    if found >= wanted {
        return None;
    }
    Some(Shortfall::LowLevel { found, wanted })
}

/// The greatest level of a builder with this id, or `None` where there is no such builder.
fn greatest_level(builders: &[&Builder], id: &str) -> Option<u8>
    ensures { IsGreatest (HasLevel builders.now id.now) result }
{
    let mut greatest = None;
    for builder in builders {
        if builder.id.as_str() == id {
            greatest = Some(greater(greatest, builder.level));
        }
    }
    greatest
}

/// The greater of two levels, the first of which may be missing.
fn greater(found: Option<u8>, level: u8) -> u8
    ensures one { (result ≡ level) ⊎ (found ≡ Some result) }
    ensures level { level ≤ result }
    ensures found { IfSome found (λ other. other ≤ result) }
{
    match found {
        Some(other) if other > level => other,
        _ => level,
    }
}
