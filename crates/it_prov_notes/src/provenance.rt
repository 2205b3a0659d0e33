//! What provenance misses.
ghost use Rattle.std.specs.Prelude.{List, ℕ, IfOk, IfSome};
ghost use Rattle.it_digest.specs.declared.compare.DigestSet.{DigestSet};
ghost use Rattle.it_dsse.specs.Panel.{Panel};
ghost use Rattle.it_dsse.specs.declared.envelope.Envelope.{Envelope};
ghost use Rattle.it_prov_notes.specs.ProvenanceNotes.{IsProvenanceOn, Misses};
ghost use Rattle.it_prov_notes.specs.inside.Judged.{AreSigners};

use crate::builder::{low_level, other_builder};
use crate::note::Shortfall;
use crate::parameters::{differing_parameter, unexpected_parameter};
use it_base::text::Text;
use it_docs::policy::{Builder, Expectation};
use it_docs::statement::Provenance;
use std::alloc::{AllocError, Global};

/// The first thing that provenance misses in an envelope that these expected builders signed: the
/// builder, the type of the build, a parameter, or the level.
pub(crate) fn provenance_misses(
    alloc: Global,
    provenance: &Provenance,
    expectation: &Expectation,
    signers: &[&Builder],
) -> Result<Option<Shortfall>, AllocError>
    ensures { (panel : Panel) (digests : DigestSet) (line : List ℕ) (envelope : Envelope)
        → IsProvenanceOn line envelope provenance.now
        → AreSigners panel expectation.now envelope signers.now
        → IfOk result (λ found. IfSome found (Misses panel expectation.now digests line)) }
{
    match other_builder(alloc, provenance, signers)? {
        None => build_misses(alloc, provenance, expectation, signers),
        found => Ok(found),
    }
}

fn build_misses(
    alloc: Global,
    provenance: &Provenance,
    expectation: &Expectation,
    signers: &[&Builder],
) -> Result<Option<Shortfall>, AllocError>
    ensures { (panel : Panel) (digests : DigestSet) (line : List ℕ) (envelope : Envelope)
        → IsProvenanceOn line envelope provenance.now
        → AreSigners panel expectation.now envelope signers.now
        → IfOk result (λ found. IfSome found (Misses panel expectation.now digests line)) }
{
    match other_build_type(alloc, provenance, expectation)? {
        None => parameters_miss(alloc, provenance, expectation, signers),
        found => Ok(found),
    }
}

fn parameters_miss(
    alloc: Global,
    provenance: &Provenance,
    expectation: &Expectation,
    signers: &[&Builder],
) -> Result<Option<Shortfall>, AllocError>
    ensures { (panel : Panel) (digests : DigestSet) (line : List ℕ) (envelope : Envelope)
        → IsProvenanceOn line envelope provenance.now
        → AreSigners panel expectation.now envelope signers.now
        → IfOk result (λ found. IfSome found (Misses panel expectation.now digests line)) }
{
    match differing_parameter(alloc, provenance, expectation)? {
        None => rest_misses(alloc, provenance, expectation, signers),
        found => Ok(found),
    }
}

fn rest_misses(
    alloc: Global,
    provenance: &Provenance,
    expectation: &Expectation,
    signers: &[&Builder],
) -> Result<Option<Shortfall>, AllocError>
    ensures { (panel : Panel) (digests : DigestSet) (line : List ℕ) (envelope : Envelope)
        → IsProvenanceOn line envelope provenance.now
        → AreSigners panel expectation.now envelope signers.now
        → IfOk result (λ found. IfSome found (Misses panel expectation.now digests line)) }
{
    match unexpected_parameter(alloc, provenance, expectation)? {
        None => Ok(low_level(provenance, expectation, signers)),
        found => Ok(found),
    }
}

fn other_build_type(
    alloc: Global,
    provenance: &Provenance,
    expectation: &Expectation,
) -> Result<Option<Shortfall>, AllocError>
    ensures { (panel : Panel) (digests : DigestSet) (line : List ℕ) (envelope : Envelope)
        → IsProvenanceOn line envelope provenance.now
        → IfOk result (λ found. IfSome found (Misses panel expectation.now digests line)) }
{
    let found = provenance.build_type.as_str();
    let wanted = expectation.build_type.as_str();
    if found == wanted {
        return Ok(None);
    }
    Ok(Some(Shortfall::OtherBuildType {
        found: Text::copy(alloc, found)?,
        wanted: Text::copy(alloc, wanted)?,
    }))
}
