//! The notes on a step for which too few keys signed.
ghost use Rattle.std.specs.Prelude.{All, IfOk};
ghost use Rattle.it_step_notes.specs.StepNotes.{Holds};

use crate::file_notes::push_file_notes;
use crate::id_notes::push_id_notes;
use crate::near_names::push_near_names;
use crate::note::StepNote;
use crate::step_at::StepAt;
use it_chain::bundle::Bundle;
use it_docs::layout::Layout;
use it_docs::step::Step;
use it_dsse::checks::Checks;
use std::alloc::{AllocError, Global};

/// Notes on a step of a layout over a bundle, each of them true: for each file that is claimed for
/// the step, in the order of the files, why it does not count, or for which key ids it does; for
/// each key id that the step lists, whether the layout has no key for it, and whether no file has
/// the name of its link; and each file whose name nearly claims it for the step (in-toto 1.0
/// sections 4.4 and 5.2). Signatures are checked by the `checks`.
///
/// # Errors
///
/// `AllocError` where memory was refused.
pub fn threshold_notes<C: Checks>(
    alloc: Global,
    layout: &Layout,
    bundle: &Bundle,
    step: &Step,
    checks: &C,
) -> Result<Vec<StepNote>, AllocError>
    ensures { IfOk result (λ notes. All (Holds (C.panel checks.now) layout.now
        bundle.now step.now) notes.items) }
{
    let at = StepAt {
        layout,
        bundle,
        step,
    };
    let mut notes = Vec::new(alloc);
    push_file_notes(alloc, &at, checks, &mut notes)?;
    push_id_notes(alloc, &at, &mut notes)?;
    push_near_names(alloc, &at, &mut notes)?;
    Ok(notes)
}
