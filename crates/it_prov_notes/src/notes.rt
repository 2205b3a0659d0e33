//! The notes on the lines of the provenance.
ghost use Rattle.std.specs.Prelude.{All, IfOk};
ghost use Rattle.it_prov.specs.ProvenanceLines.{AreLinesOf};
ghost use Rattle.it_prov_notes.specs.ProvenanceNotes.{Holds};

use crate::delivery::Delivery;
use crate::line::{Line, line_misses};
use crate::lines_left::LinesLeft;
use crate::note::ProvenanceNote;
use crate::room::Room;
use it_digest::sums::split_line;
use it_dsse::checks::Checks;
use std::alloc::{AllocError, Global};

/// What the lines of the provenance miss of the expectation that speaks of a delivered file, in
/// their order.
///
/// There is a note for each line that is not an envelope. For an envelope that an expected builder
/// signed, or with a subject that has the digests of the file, there is one with the first thing
/// that it misses. For one that none of the builders signed, and whose payload has more than 256
/// KiB, there is a note that it was not looked at. There is none for an empty line, for an envelope
/// that misses nothing, or for any other that is about other files and that none of the builders
/// signed. The `checks` check each envelope's signatures, each at most once for each key of the
/// expected builders.
///
/// Of the lines that are no envelopes and the payloads that none of the builders signed 2 MiB are
/// looked at in all, and no envelope of another type than in-toto's after 40 signatures on such
/// envelopes.
///
/// # Errors
///
/// `AllocError` where memory was refused.
pub fn missing_notes<C: Checks>(
    alloc: Global,
    delivery: &Delivery<'_>,
    checks: &C,
) -> Result<Vec<ProvenanceNote>, AllocError>
    requires { AreLinesOf delivery.now.provenance.now delivery.now.lines.now }
    ensures { IfOk result (λ notes. All (Holds (C.panel checks.now)
        delivery.now.expectation.now delivery.now.digests delivery.now.provenance.now)
        notes.items) }
{
    let mut notes = Vec::new(alloc);
    let mut room = Room::new();
    let mut rest = delivery.provenance;
    let mut left = LinesLeft::of(delivery.lines);
    let mut number = 0;
    while !rest.is_empty() {
        let (bytes, after) = split_line(rest);
        number += 1;
        let line = Line {
            bytes,
            envelope: left.next_at(number),
        };
        if let Some(shortfall) = line_misses(alloc, &line, delivery, checks, &mut room)? {
            notes.push(ProvenanceNote {
                line: number,
                shortfall,
            })?;
        }
        rest = after;
    }
    Ok(notes)
}
