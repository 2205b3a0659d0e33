//! Which owners signed the layout.
ghost use Rattle.std.specs.Prelude.{IfOk, List, ℕ};
ghost use Rattle.it_report.specs.declared.refusal.Fault.TheVariants.{OwnerMissing};
ghost use Rattle.it_verify.specs.Grounds.{IsBegun};
ghost use Rattle.it_verify.specs.declared.inputs.Inputs.{Inputs};
ghost use Rattle.it_notes.specs.RefusalNotes.{TellsInputs};

use crate::notes::RefusalNotes;
use it_dsse::checks::Checks;
use it_rule_notes::owner_note::owner_notes;
use it_verify::grounds::Begun;
use std::alloc::{AllocError, Global};

/// For each owner of the policy, whether they signed the layout.
pub(crate) fn owners_told<C: Checks>(
    alloc: Global,
    begun: &Begun,
    checks: &C,
) -> Result<RefusalNotes, AllocError>
    ensures { (inputs : Inputs) → IsBegun inputs begun.now → IfOk result
        (λ told. (id : List ℕ) → TellsInputs (C.panel checks.now) inputs (OwnerMissing id) told) }
{
    let notes = owner_notes(alloc, &begun.policy.owners, &begun.envelope, checks)?;
    Ok(RefusalNotes::Owners(notes))
}
