//! Which parameter of a build is not as expected.
ghost use Rattle.std.specs.Prelude.{◌↔◌, List, ℕ, Contains, IfOk, IfSome, IsTrue};
ghost use Rattle.it_digest.specs.declared.compare.DigestSet.{DigestSet};
ghost use Rattle.it_dsse.specs.Panel.{Panel};
ghost use Rattle.it_dsse.specs.declared.envelope.Envelope.{Envelope};
ghost use Rattle.it_prov_notes.specs.ProvenanceNotes.{IsProvenanceOn, Misses};

use crate::difference::first_difference;
use crate::note::Shortfall;
use it_base::text::Text;
use it_docs::policy::Expectation;
use it_docs::statement::Provenance;
use std::alloc::{AllocError, Global};

/// The first name under which the expected parameter is missing or unequal.
pub(crate) fn differing_parameter(
    alloc: Global,
    provenance: &Provenance,
    expectation: &Expectation,
) -> Result<Option<Shortfall>, AllocError>
    ensures { (panel : Panel) (digests : DigestSet) (line : List ℕ) (envelope : Envelope)
        → IsProvenanceOn line envelope provenance.now
        → IfOk result (λ found. IfSome found (Misses panel expectation.now digests line)) }
{
    for (name, _) in expectation.parameters.iter() {
        let differing = differing_at(alloc, provenance, expectation, name.as_str())?;
        if differing.is_some() {
            return Ok(differing);
        }
    }
    Ok(None)
}

fn differing_at(
    alloc: Global,
    provenance: &Provenance,
    expectation: &Expectation,
    name: &str,
) -> Result<Option<Shortfall>, AllocError>
    ensures { (panel : Panel) (digests : DigestSet) (line : List ℕ) (envelope : Envelope)
        → IsProvenanceOn line envelope provenance.now
        → IfOk result (λ found. IfSome found (Misses panel expectation.now digests line)) }
{
    match (
        expectation.parameters.get(name),
        provenance.parameters.get(name),
    ) {
        (Some(_), None) => Ok(Some(Shortfall::MissingParameter(Text::copy(alloc, name)?))),
        (Some(wanted), Some(given)) if !given.equals(wanted) => {
            Ok(Some(Shortfall::UnequalParameter {
                name: Text::copy(alloc, name)?,
                difference: first_difference(alloc, given, wanted)?,
            }))
        }
        _ => Ok(None),
    }
}

/// The name of the first parameter that is neither expected nor ignored.
pub(crate) fn unexpected_parameter(
    alloc: Global,
    provenance: &Provenance,
    expectation: &Expectation,
) -> Result<Option<Shortfall>, AllocError>
    ensures { (panel : Panel) (digests : DigestSet) (line : List ℕ) (envelope : Envelope)
        → IsProvenanceOn line envelope provenance.now
        → IfOk result (λ found. IfSome found (Misses panel expectation.now digests line)) }
{
    for (name, _) in provenance.parameters.iter() {
        let unexpected = unexpected_at(alloc, provenance, expectation, name.as_str())?;
        if unexpected.is_some() {
            return Ok(unexpected);
        }
    }
    Ok(None)
}

fn unexpected_at(
    alloc: Global,
    provenance: &Provenance,
    expectation: &Expectation,
    name: &str,
) -> Result<Option<Shortfall>, AllocError>
    ensures { (panel : Panel) (digests : DigestSet) (line : List ℕ) (envelope : Envelope)
        → IsProvenanceOn line envelope provenance.now
        → IfOk result (λ found. IfSome found (Misses panel expectation.now digests line)) }
{
    match (
        expectation.parameters.get(name),
        provenance.parameters.get(name),
    ) {
        (None, Some(_)) if !is_ignored(expectation, name) => {
            Ok(Some(Shortfall::UnexpectedParameter(Text::copy(alloc, name)?)))
        }
        _ => Ok(None),
    }
}

fn is_ignored(expectation: &Expectation, name: &str) -> bool
    ensures { IsTrue result ↔ Contains expectation.now.ignore name.now }
{
    expectation
        .ignore
        .as_slice()
        .iter()
        .any(|ignored| ignored.as_str() == name)
}
