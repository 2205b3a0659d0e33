//! Why a delivery was refused.
ghost use Rattle.std.specs.Prelude.{IfOk};
ghost use Rattle.it_dsse.specs.Panel.{Panel};
ghost use Rattle.it_verify.specs.Grounds.{HasLines, IsBegun};
ghost use Rattle.it_verify.specs.declared.inputs.Inputs.{Inputs};
ghost use Rattle.it_notes.specs.Known.{IsBasis, IsKnown, LinesAreKnown};
ghost use Rattle.it_notes.specs.RefusalNotes.{Tells, TellsInputs};

use crate::bad_parts::{layout_told, line_told, moment_told, no_line_told, policy_told};
use crate::inspections::{bad_told, missing_told};
use crate::known::{Basis, Known};
use crate::layout_envelope::{envelope_told, type_told};
use crate::level_notes::level_told;
use crate::notes::RefusalNotes;
use crate::owners::owners_told;
use crate::patterns::patterns_told;
use crate::provenance::provenance_told;
use it_digest::sums::ListAlgorithm;
use it_dsse::checks::Checks;
use it_report::refusal::{Fault, Refusal};
use it_verify::grounds::Begun;
use it_verify::inputs::Inputs;
use std::alloc::{AllocError, Global};

/// The notes on a refusal, by its fault.
pub(crate) fn refusal_notes<C: Checks>(
    alloc: Global,
    inputs: &Inputs,
    basis: &Basis,
    refusal: &Refusal,
    checks: &C,
) -> Result<RefusalNotes, AllocError>
    requires basis { IsBasis (C.panel checks.now) inputs.now basis.now }
    requires lines { LinesAreKnown refusal.now.fault basis.now }
    ensures { IfOk result (Tells (C.panel checks.now) inputs.now refusal.now) }
{
    match basis {
        Basis::Nothing => input_notes(alloc, inputs, &refusal.fault),
        Basis::Begun(begun) => begun_notes(alloc, begun, &refusal.fault, checks),
        Basis::Known(known) => known_notes(alloc, known, refusal, checks),
    }
}

/// The notes on a refusal where the documents read, and every owner signed the layout.
fn known_notes<C: Checks>(
    alloc: Global,
    known: &Known,
    refusal: &Refusal,
    checks: &C,
) -> Result<RefusalNotes, AllocError>
    requires known { IsKnown (C.panel checks.now) known.now.inputs.now known.now }
    requires lines { HasLines refusal.now.fault known.now.lines }
    ensures { IfOk result (Tells (C.panel checks.now) known.now.inputs.now refusal.now) }
{
    match &refusal.fault {
        Fault::RecordMissing(name) => missing_told(alloc, known.inputs, name.as_str()),
        Fault::BadRecord(name) => bad_told(alloc, known.inputs, name.as_str()),
        Fault::NoExpectation(_) => patterns_told(alloc, known),
        Fault::NoProvenance(path, _) => provenance_told(alloc, known, path.as_str(), checks),
        _ => level_told(alloc, known, refusal, checks),
    }
}

/// The notes on a fault of the documents that were given, where none is handed out.
fn input_notes(alloc: Global, inputs: &Inputs, fault: &Fault) -> Result<RefusalNotes, AllocError>
    ensures { IfOk result (λ told. (panel : Panel)
        → TellsInputs panel inputs.now fault.now told) }
{
    match fault {
        Fault::BadPolicy(part) => policy_told(alloc, inputs, *part),
        Fault::BadSums(line) => line_told(alloc, inputs, ListAlgorithm::Sha256, *line),
        Fault::BadSums512(line) => line_told(alloc, inputs, ListAlgorithm::Sha512, *line),
        Fault::BadMoment => moment_told(alloc, inputs),
        Fault::NoFiles => Ok(no_line_told(inputs)),
        Fault::BadEnvelope => envelope_told(alloc, inputs),
        _ => Ok(RefusalNotes::Nothing),
    }
}

/// The notes on a fault in what the layout's envelope holds.
fn begun_notes<C: Checks>(
    alloc: Global,
    begun: &Begun,
    fault: &Fault,
    checks: &C,
) -> Result<RefusalNotes, AllocError>
    ensures { (inputs : Inputs) → IsBegun inputs begun.now
        → IfOk result (TellsInputs (C.panel checks.now) inputs fault.now) }
{
    match fault {
        Fault::WrongPayloadType => type_told(alloc, &begun.envelope),
        Fault::OwnerMissing(_) => owners_told(alloc, begun, checks),
        Fault::BadLayout(part) => layout_told(alloc, &begun.envelope, part),
        _ => Ok(RefusalNotes::Nothing),
    }
}
