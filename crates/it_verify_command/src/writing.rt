//! The writing of an answer.
ghost use Rattle.std.specs.Prelude.{◌≡◌, IfErr, IfOk};
ghost use Rattle.std.specs.Io.KnownBytes.{Appends};
ghost use Rattle.it_base.specs.Writing.{AppendsBeginning};
ghost use Rattle.it_notes.specs.Known.{IsTold};

use crate::answer::Answer;
use crate::signer_notes::note_signers;
use crate::told_lines::told_lines;
use crate::verification::Verification;
use it_base::writing::write_all_of;
use it_dsse::checks::Checks;
use it_notes::found_in_documents::add_found;
use it_notes::known::Told;
use it_outcome::output::put;
use it_outcome::{RunFault, Status};
use std::alloc::{AllocError, Global};
use std::io::Write;

/// Writes the output of an answer, and then, where they follow elsewhere, the notes on it, after
/// what goes before them.
pub(crate) fn write_answer<C: Checks, W: Write, N: Write>(
    alloc: Global,
    asked: &Verification<C>,
    answer: Answer,
    out: &mut W,
    notes: &mut N,
) -> Result<Status, RunFault>
    requires { IsTold (C.panel asked.now.checks.now) asked.now.inputs.now answer.told }
    ensures ok { IfOk result (λ status. (status ≡ answer.entry.output.status)
        × Appends (W.contents out.old) (W.contents out.new) answer.entry.output.text.items) }
    ensures err { IfErr result (λ fault. (fault ≡ RunFault.Write) × AppendsBeginning
        (W.contents out.old) (W.contents out.new) answer.entry.output.text.items) }
{
    let outcome = put(out, &answer.output);
    if outcome.is_ok() {
        write_notes(alloc, asked, &answer, notes);
    }
    outcome
}

/// Writes the notes on an answer, where they follow elsewhere, after what goes before them; and
/// then those on who signed the provenance, which follow elsewhere in every form.
fn write_notes<C: Checks, N: Write>(
    alloc: Global,
    asked: &Verification<C>,
    answer: &Answer,
    notes: &mut N,
)
    requires { IsTold (C.panel asked.now.checks.now) asked.now.inputs.now answer.now.told }
{
    if answer.noted {
        let _ = write_all_of(notes, answer.before_notes.as_slice());
        note(alloc, asked, &answer.told, notes);
    }
    note_signers(alloc, asked.vouched, &answer.told, notes);
}

/// Writes the notes on what was told, as far as memory suffices and they can be written.
fn note<C: Checks, N: Write>(alloc: Global, asked: &Verification<C>, told: &Told, notes: &mut N)
    requires { IsTold (C.panel asked.now.checks.now) asked.now.inputs.now told.now }
{
    if let Ok(text) = notes_text(alloc, asked, told) {
        let _ = notes.write_all(text.as_slice());
    }
}

/// The lines of the notes on what was told.
fn notes_text<C: Checks>(
    alloc: Global,
    asked: &Verification<C>,
    told: &Told,
) -> Result<Vec<u8>, AllocError>
    requires { IsTold (C.panel asked.now.checks.now) asked.now.inputs.now told.now }
{
    let mut lines = told_lines(alloc, asked, told)?;
    add_found(&mut lines, told)?;
    lines.into_text()
}
