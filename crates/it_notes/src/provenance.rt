//! Why a delivered file has no provenance.
ghost use Rattle.std.specs.Bool.{OnTrue};
ghost use Rattle.std.specs.Prelude.{IfOk, IfSome, IsSome, Option, ℕ};
ghost use Rattle.it_prov.specs.Fits.{Fits};
ghost use Rattle.it_prov.specs.ProvenanceLines.{AreLinesOf};
ghost use Rattle.it_prov_notes.specs.LaidOut.{IsLaidOut};
ghost use Rattle.it_report.specs.declared.refusal.Fault.TheVariants.{NoProvenance};
ghost use Rattle.it_notes.specs.Known.{IsKnown};
ghost use Rattle.it_notes.specs.RefusalNotes.{TellsInputs};

use crate::known::Known;
use crate::notes::RefusalNotes;
use crate::room::Room;
use it_docs::policy::Expectation;
use it_dsse::checks::Checks;
use it_prov::fits::fitting;
use it_prov::provenance_lines::ProvenanceLines;
use it_prov_notes::delivery::Delivery;
use it_prov_notes::{is_laid_out, missing_notes};
use std::alloc::{AllocError, Global};

/// What the lines of the provenance miss of the expectation that speaks of the delivered file at a
/// path, or why it has no lines that could be looked at.
pub(crate) fn provenance_told<C: Checks>(
    alloc: Global,
    known: &Known,
    path: &str,
    checks: &C,
) -> Result<RefusalNotes, AllocError>
    requires known { IsKnown (C.panel checks.now) known.now.inputs.now known.now }
    requires lines { IsSome known.now.lines }
    ensures { IfOk result (λ told. (best : Option ℕ) → TellsInputs
        (C.panel checks.now) known.now.inputs.now (NoProvenance path.now best) told) }
{
    let provenance = known.inputs.provenance.as_slice();
    if provenance.is_empty() {
        return Ok(RefusalNotes::EmptyProvenance);
    }
    let Some(lines) = &known.lines else {
        unreachable!();
    };
    if is_short_envelope(alloc, provenance, lines)? {
        return Ok(RefusalNotes::LaidOut);
    }
    let Some(digests) = known.delivered.get(path) else {
        return Ok(RefusalNotes::Nothing);
    };
    let Some(expectation) = speaking(known.policy.expectations.as_slice(), path) else {
        return Ok(RefusalNotes::Nothing);
    };
    let delivery = Delivery {
        digests,
        expectation,
        provenance,
        lines,
    };
    let notes = missing_notes(alloc, &delivery, checks)?;
    Ok(RefusalNotes::Provenance(notes))
}

/// Whether the provenance as a whole is one envelope over several lines, and is not too large to be
/// looked at as a whole.
fn is_short_envelope(
    alloc: Global,
    provenance: &[u8],
    lines: &ProvenanceLines,
) -> Result<bool, AllocError>
    requires { AreLinesOf provenance.now lines.now }
    ensures { IfOk result (λ is. OnTrue is (IsLaidOut provenance.now)) }
{
    if !Room::new().takes(provenance.len()) {
        return Ok(false);
    }
    is_laid_out(alloc, provenance, lines)
}

/// The expectation that speaks of the file at a path.
pub(crate) fn speaking<'a>(expectations: &'a [Expectation], path: &str) -> Option<&'a Expectation>
    ensures { IfSome result (λ expectation. Fits expectations.now path.now expectation.now) }
{
    let place = fitting(expectations, path)?;
    expectations.get(place)
}
