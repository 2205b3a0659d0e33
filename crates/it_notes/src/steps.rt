//! Why too few keys signed a step.
ghost use Rattle.std.specs.Prelude.{◌≡◌, IfOk, ℕ};
ghost use Rattle.it_report.specs.declared.refusal.Fault.TheVariants.{Threshold};
ghost use Rattle.it_verify.specs.declared.inputs.Inputs.{Inputs};
ghost use Rattle.it_notes.specs.RefusalNotes.{TellsAt};

use crate::details::with_details;
use crate::fault_level::FaultLevel;
use crate::notes::RefusalNotes;
use it_docs::step::step_named;
use it_dsse::checks::Checks;
use it_step_notes::threshold_notes;
use std::alloc::{AllocError, Global};

/// The notes on the step of this name, for which too few keys signed.
pub(crate) fn step_told<C: Checks>(
    alloc: Global,
    level: &FaultLevel,
    name: &str,
    checks: &C,
) -> Result<RefusalNotes, AllocError>
    ensures { IfOk result (λ told. (inputs : Inputs) (found : ℕ) (needed : ℕ) → TellsAt
        (C.panel checks.now) inputs level.now (Threshold name.now found needed)
        told) }
{
    let layout = &level.signed.layout;
    let Some(step) = step_named(layout.steps.as_slice(), name) else {
        return Ok(RefusalNotes::Nothing);
    };
    let notes = threshold_notes(alloc, layout, level.links, step, checks)?;
    let told = with_details(alloc, level.links, step, notes)?;
    Ok(RefusalNotes::Step(told))
}
