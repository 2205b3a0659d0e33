//! When the layout expired.
ghost use Rattle.std.specs.Prelude.{IfOk};
ghost use Rattle.it_dsse.specs.Panel.{Panel};
ghost use Rattle.it_report.specs.declared.refusal.Fault.TheVariants.{Expired};
ghost use Rattle.it_notes.specs.RefusalNotes.{TellsAt};

use crate::fault_level::FaultLevel;
use crate::notes::RefusalNotes;
use it_rule_notes::expiry_note::expiry_note;
use it_verify::inputs::Inputs;
use std::alloc::{AllocError, Global};

/// When a layout expired.
pub(crate) fn expiry_told(
    alloc: Global,
    inputs: &Inputs,
    level: &FaultLevel,
) -> Result<RefusalNotes, AllocError>
    ensures { IfOk result
        (λ told. (panel : Panel) → TellsAt panel inputs.now level.now Expired told) }
{
    let payload = level.signed.payload.as_slice();
    match expiry_note(alloc, payload, inputs.moment.as_str())? {
        Some(note) => Ok(RefusalNotes::Expiry(note)),
        None => Ok(RefusalNotes::Nothing),
    }
}
