//! Which files hold bodies, or links, of a step that must be equal but are not.
ghost use Rattle.std.specs.Prelude.{IfOk};
ghost use Rattle.it_report.specs.declared.refusal.Fault.TheVariants.{Disagree, TwoPayloads};
ghost use Rattle.it_verify.specs.declared.inputs.Inputs.{Inputs};
ghost use Rattle.it_notes.specs.RefusalNotes.{TellsAt};

use crate::fault_level::FaultLevel;
use crate::notes::RefusalNotes;
use it_dsse::checks::Checks;
use it_rule_notes::disagree_note::disagree_note;
use it_rule_notes::level::Level;
use it_rule_notes::payloads_note::payloads_note;
use std::alloc::{AllocError, Global};

/// Which two files hold bodies that count for a key id of a step, and differ.
pub(crate) fn payloads_told<C: Checks>(
    alloc: Global,
    level: &FaultLevel,
    step: &str,
    id: &str,
    checks: &C,
) -> Result<RefusalNotes, AllocError>
    ensures { IfOk result (λ told. (inputs : Inputs) → TellsAt (C.panel checks.now)
        inputs level.now (TwoPayloads step.now id.now) told) }
{
    let level = Level {
        layout: &level.signed.layout,
        links: level.links,
        moment: level.moment,
    };
    match payloads_note(alloc, &level, step, id, checks)? {
        Some(note) => Ok(RefusalNotes::Payloads(note)),
        None => Ok(RefusalNotes::Nothing),
    }
}

/// Which two files hold links that count for a step, and where these differ.
pub(crate) fn disagreement_told<C: Checks>(
    alloc: Global,
    level: &FaultLevel,
    step: &str,
    id: &str,
    checks: &C,
) -> Result<RefusalNotes, AllocError>
    ensures { IfOk result (λ told. (inputs : Inputs) → TellsAt (C.panel checks.now)
        inputs level.now (Disagree step.now id.now) told) }
{
    let level = Level {
        layout: &level.signed.layout,
        links: level.links,
        moment: level.moment,
    };
    match disagree_note(alloc, &level, step, id, checks)? {
        Some(note) => Ok(RefusalNotes::Disagreement(note)),
        None => Ok(RefusalNotes::Nothing),
    }
}
