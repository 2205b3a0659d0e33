//! The lines of the notes on what was told.
ghost use Rattle.std.specs.Prelude.{IfOk};
ghost use Rattle.it_notes.specs.Known.{IsTold};
ghost use Rattle.it_verify_command.specs.inside.ToldLines.{AreNoteLines};

use crate::verification::Verification;
use it_dsse::checks::Checks;
use it_notes::known::Told;
use it_notes::lines::Lines;
use it_notes::notes::Notes;
use std::alloc::{AllocError, Global};

/// The lines of the notes on what was told.
pub(crate) fn told_lines<C: Checks>(
    alloc: Global,
    asked: &Verification<C>,
    told: &Told,
) -> Result<Lines, AllocError>
    requires { IsTold (C.panel asked.now.checks.now) asked.now.inputs.now told.now }
    ensures { IfOk result
        (AreNoteLines (C.panel asked.now.checks.now) asked.now.inputs.now told.now.verdict) }
{
    let notes = Notes::of(alloc, asked.inputs, told, asked.checks)?;
    notes.lines(alloc)
}
