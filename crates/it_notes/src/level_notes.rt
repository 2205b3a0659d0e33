//! Notes on the layout at which a delivery was refused.
ghost use Rattle.std.specs.Prelude.{◌⊎◌, IfOk};
ghost use Rattle.it_notes.specs.Known.{IsKnown};
ghost use Rattle.it_notes.specs.Level.{StepsStand};
ghost use Rattle.it_notes.specs.RefusalNotes.{TellsAt, TellsLevelOrNothing};

use crate::expiry::expiry_told;
use crate::fault_level::{FaultLevel, level_reached, sublayout_reached};
use crate::known::Known;
use crate::notes::RefusalNotes;
use crate::records::{disagreement_told, payloads_told};
use crate::rules::{FailedRule, rule_told};
use crate::steps::step_told;
use it_dsse::checks::Checks;
use it_report::refusal::{Fault, Refusal};
use std::alloc::{AllocError, Global};

/// The notes on the layout that a refusal is about; none where it is about no layout.
pub(crate) fn level_told<C: Checks>(
    alloc: Global,
    known: &Known,
    refusal: &Refusal,
    checks: &C,
) -> Result<RefusalNotes, AllocError>
    requires { IsKnown (C.panel checks.now) known.now.inputs.now known.now }
    ensures { IfOk result (TellsLevelOrNothing
        (C.panel checks.now) known.now.inputs.now refusal.now.at refusal.now.fault) }
{
    let at = refusal.at.as_slice();
    let sublayout = sublayout_reached(alloc, known, at, checks)?;
    match level_reached(known, at, &sublayout) {
        Some(level) => level_notes(alloc, known, level, &refusal.fault, checks),
        None => Ok(RefusalNotes::Nothing),
    }
}

/// The notes on a fault of a layout.
fn level_notes<C: Checks>(
    alloc: Global,
    known: &Known,
    level: &FaultLevel,
    fault: &Fault,
    checks: &C,
) -> Result<RefusalNotes, AllocError>
    requires known { IsKnown (C.panel checks.now) known.now.inputs.now known.now }
    requires steps { StepsStand (C.panel checks.now) known.now.inputs.now.depth level.now }
    ensures { IfOk result
        (TellsAt (C.panel checks.now) known.now.inputs.now level.now fault.now) }
{
    match fault {
        Fault::Expired => expiry_told(alloc, known.inputs, level),
        Fault::TwoPayloads { step, id } => {
            payloads_told(alloc, level, step.as_str(), id.as_str(), checks)
        }
        Fault::Disagree { step, id } => {
            disagreement_told(alloc, level, step.as_str(), id.as_str(), checks)
        }
        Fault::Threshold { step, .. } => step_told(alloc, level, step.as_str(), checks),
        Fault::RuleFailed {
            item,
            side,
            index,
            ..
        } => {
            let rule = FailedRule {
                item,
                side: *side,
                index: *index,
            };
            rule_told(alloc, known, level, &rule, checks)
        }
        _ => Ok(RefusalNotes::Nothing),
    }
}
