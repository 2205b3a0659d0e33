//! What an envelope misses.
ghost use Rattle.std.specs.Prelude.{List, ℕ, IfOk, IfSome};
ghost use Rattle.it_dsse.specs.Envelope.{EnvelopeOf};
ghost use Rattle.it_dsse.specs.Panel.{Panel};
ghost use Rattle.it_prov_notes.specs.ProvenanceNotes.{Misses, NoneSigned};
ghost use Rattle.it_prov_notes.specs.inside.Judged.{AreSigners};

use crate::delivery::Delivery;
use crate::hinted::hinted_key;
use crate::note::Shortfall;
use crate::room::Room;
use crate::shape::type_in;
use crate::signers::signers_among;
use crate::statement::{is_about, statement_misses};
use it_base::text::Text;
use it_borrowed::parts::from_bytes;
use it_docs::policy::Builder;
use it_docs::statement::Statement;
use it_dsse::checks::Checks;
use it_dsse::envelope::Envelope;
use it_dsse::meter::Meter;
use it_dsse::payload_type::IN_TOTO;
use std::alloc::{AllocError, Global};

/// The most bytes of a payload that is looked at though no expected builder signed it.
const MOST_BYTES: usize = 262_144;

/// What an envelope misses. One that no expected builder signed is noted only where it is about the
/// file, or too large to be looked at; and one for which there is no room is not noted.
pub(crate) fn envelope_misses<C: Checks>(
    alloc: Global,
    envelope: &Envelope,
    delivery: &Delivery<'_>,
    checks: &C,
    room: &mut Room,
) -> Result<Option<Shortfall>, AllocError>
    ensures { (line : List ℕ) → EnvelopeOf line envelope.now → IfOk result (λ found.
        IfSome found (Misses (C.panel checks.now) delivery.now.expectation.now
        delivery.now.digests line)) }
{
    if !room.has_signatures(envelope) {
        return Ok(None);
    }
    let mut meter = Meter { asked: 0 };
    let builders = delivery.expectation.builders.as_slice();
    let signers = signers_among(alloc, builders, envelope, checks, &mut meter)?;
    room.count(envelope, &meter);
    if !signers.is_empty() {
        return signed_misses(alloc, envelope, delivery, signers.as_slice());
    }
    unsigned_misses(alloc, envelope, delivery, checks, room)
}

/// What an envelope misses that none of the expected builders signed. A payload that is too large
/// is not looked at, whatever it is about, and neither is one for which there is no room.
fn unsigned_misses<C: Checks>(
    alloc: Global,
    envelope: &Envelope,
    delivery: &Delivery<'_>,
    checks: &C,
    room: &mut Room,
) -> Result<Option<Shortfall>, AllocError>
    ensures { (line : List ℕ) → EnvelopeOf line envelope.now
        → NoneSigned (C.panel checks.now) delivery.now.expectation.now envelope.now
        → IfOk result (λ found. IfSome found (Misses (C.panel checks.now)
        delivery.now.expectation.now delivery.now.digests line)) }
{
    if envelope.payload.as_slice().len() > MOST_BYTES {
        return Ok(Some(Shortfall::TooLarge));
    }
    if !room.takes(envelope.payload.as_slice().len()) {
        return Ok(None);
    }
    if is_about(alloc, envelope, &delivery.digests)? {
        let builders = delivery.expectation.builders.as_slice();
        let hinted = hinted_key(alloc, builders, envelope, checks, &mut room.hinted)?;
        return Ok(Some(Shortfall::NotSigned(hinted)));
    }
    Ok(None)
}

/// What an envelope misses, given the expected builders that signed it.
fn signed_misses(
    alloc: Global,
    envelope: &Envelope,
    delivery: &Delivery<'_>,
    signers: &[&Builder],
) -> Result<Option<Shortfall>, AllocError>
    ensures { (panel : Panel) (line : List ℕ) → EnvelopeOf line envelope.now
        → AreSigners panel delivery.now.expectation.now envelope.now signers.now
        → IfOk result (λ found. IfSome found
        (Misses panel delivery.now.expectation.now delivery.now.digests line)) }
{
    let kind = envelope.payload_type.as_str();
    if kind != IN_TOTO {
        return Ok(Some(Shortfall::OtherPayloadType(Text::copy(alloc, kind)?)));
    }
    let payload = envelope.payload.as_slice();
    match from_bytes::<Statement>(alloc, payload)? {
        Some(statement) => statement_misses(alloc, &statement, delivery, signers),
        None => Ok(Some(Shortfall::NoStatement(type_in(alloc, payload)?))),
    }
}
