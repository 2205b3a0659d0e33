//! What a line misses.
ghost use Rattle.std.specs.Prelude.{IfOk, IfSome};
ghost use Rattle.it_base.specs.Finds.{FindsAs};
ghost use Rattle.it_dsse.specs.Envelope.{EnvelopeOf};
ghost use Rattle.it_prov_notes.specs.ProvenanceNotes.{Misses};

use crate::delivery::Delivery;
use crate::envelope::envelope_misses;
use crate::note::Shortfall;
use crate::room::Room;
use crate::shape::shape_of;
use it_dsse::checks::Checks;
use it_dsse::envelope::Envelope;
use std::alloc::{AllocError, Global};

/// A line of the provenance.
#[derive(Clone, Copy)]
pub(crate) struct Line<'a> {
    /// Its bytes.
    pub bytes: &'a [u8],
    /// The envelope that it is, or `None` where it is none.
    pub envelope: Option<&'a Envelope>,
}

/// What a line misses. An empty line gets no note.
pub(crate) fn line_misses<C: Checks>(
    alloc: Global,
    line: &Line<'_>,
    delivery: &Delivery<'_>,
    checks: &C,
    room: &mut Room,
) -> Result<Option<Shortfall>, AllocError>
    requires { FindsAs (λ envelope. envelope.now) (EnvelopeOf line.now.bytes.now)
        line.now.envelope }
    ensures { IfOk result (λ found. IfSome found (Misses (C.panel checks.now)
        delivery.now.expectation.now delivery.now.digests line.now.bytes.now)) }
{
    if line.bytes.is_empty() {
        return Ok(None);
    }
    match line.envelope {
        Some(envelope) => envelope_misses(alloc, envelope, delivery, checks, room),
        None => Ok(Some(Shortfall::NoEnvelope(shape_of(alloc, line.bytes, room)?))),
    }
}
