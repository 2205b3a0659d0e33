//! What a Statement misses.
ghost use Rattle.std.specs.Prelude.{◌↔◌, List, ℕ, IfOk, IfSome, IsTrue};
ghost use Rattle.it_dsse.specs.Panel.{Panel};
ghost use Rattle.it_dsse.specs.declared.envelope.Envelope.{Envelope};
ghost use Rattle.it_prov_notes.specs.ProvenanceNotes.{IsStatementOn, Misses};
ghost use Rattle.it_prov_notes.specs.inside.Judged.{AreSigners, IsAbout};

use crate::delivery::Delivery;
use crate::note::Shortfall;
use crate::provenance::provenance_misses;
use it_base::text::Text;
use it_borrowed::parts::from_bytes;
use it_digest::compare::DigestSet;
use it_docs::policy::Builder;
use it_docs::statement::Statement;
use it_dsse::envelope::Envelope;
use it_prov::some_agrees;
use std::alloc::{AllocError, Global};

/// Whether the payload of an envelope is a Statement with a subject that has the digests.
pub(crate) fn is_about(
    alloc: Global,
    envelope: &Envelope,
    digests: &DigestSet,
) -> Result<bool, AllocError>
    ensures { IfOk result (λ about. IsTrue about ↔ IsAbout digests.now envelope.now) }
{
    match from_bytes::<Statement>(alloc, envelope.payload.as_slice())? {
        Some(statement) => Ok(some_agrees(statement.subjects.as_slice(), digests)),
        None => Ok(false),
    }
}

/// What a Statement misses in an envelope that these expected builders signed.
pub(crate) fn statement_misses(
    alloc: Global,
    statement: &Statement,
    delivery: &Delivery<'_>,
    signers: &[&Builder],
) -> Result<Option<Shortfall>, AllocError>
    ensures { (panel : Panel) (line : List ℕ) (envelope : Envelope)
        → IsStatementOn line envelope statement.now
        → AreSigners panel delivery.now.expectation.now envelope signers.now
        → IfOk result (λ found. IfSome found
        (Misses panel delivery.now.expectation.now delivery.now.digests line)) }
{
    let Some(provenance) = &statement.provenance else {
        let kind = Text::copy(alloc, statement.predicate_type.as_str())?;
        return Ok(Some(Shortfall::NoProvenance(kind)));
    };
    if !some_agrees(statement.subjects.as_slice(), &delivery.digests) {
        return Ok(Some(Shortfall::NoSubject));
    }
    provenance_misses(alloc, provenance, delivery.expectation, signers)
}
