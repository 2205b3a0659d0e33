//! The notes on the files that are claimed for a step.
ghost use Rattle.std.specs.Prelude.{All, Contains, IfOk, IfSome, OnOk};
ghost use Rattle.it_chain.specs.Contents.{files_of};
ghost use Rattle.it_step_notes.specs.StepNotes.{Holds};

use crate::finding::finding_in;
use crate::note::StepNote;
use crate::room::Room;
use crate::step_at::StepAt;
use it_base::optional::push_some;
use it_base::text::Text;
use it_chain::held_file::HeldFile;
use it_chain::is_claimed;
use it_dsse::checks::Checks;
use std::alloc::{AllocError, Global};

/// Adds what is found in each file that is claimed for the step.
pub(crate) fn push_file_notes<C: Checks>(
    alloc: Global,
    at: &StepAt,
    checks: &C,
    notes: &mut Vec<StepNote>,
) -> Result<(), AllocError>
    requires { All (Holds (C.panel checks.now) at.now.layout.now at.now.bundle.now
        at.now.step.now) notes.old.items }
    ensures { OnOk result (All (Holds (C.panel checks.now) at.now.layout.now
        at.now.bundle.now at.now.step.now) notes.new.items) }
{
    let mut room = Room::new();
    for file in at.bundle.files() {
        push_some(notes, file_note(alloc, at, file, checks, &mut room)?)?;
    }
    Ok(())
}

fn file_note<C: Checks>(
    alloc: Global,
    at: &StepAt,
    file: &HeldFile,
    checks: &C,
    room: &mut Room,
) -> Result<Option<StepNote>, AllocError>
    requires { Contains (files_of at.now.bundle.now) file.now }
    ensures { IfOk result (λ found. IfSome found (Holds (C.panel checks.now)
        at.now.layout.now at.now.bundle.now at.now.step.now)) }
{
    let name = file.name();
    if is_claimed(at.step.name.as_str(), name) {
        let finding = finding_in(alloc, at, file, checks, room)?;
        return Ok(Some(StepNote::File {
            name: Text::copy(alloc, name)?,
            finding,
        }));
    }
    Ok(None)
}
