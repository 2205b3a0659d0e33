//! A command over files in memory, and what it gives.
ghost use Rattle.std.specs.Prelude.{◌≡◌, ◌≤◌, ◌⊎◌, ◌↔◌, [], Err, IfOk, IsErr, IsTrue};
ghost use Rattle.it_library.specs.Answer.{Gives, HasBegun, IsOutput};
ghost use Rattle.it_library.specs.inside.Refusal.{IsRefused};

use crate::handed::{Handed, files_in, words_in};
use it_disk::Fault;
use it_memory::Memory;
use it_outcome::{RunFault, Status};
use it_program::{Remembering, Stop, exit_status, run_to};
use std::alloc::{AllocError, Global};

/// What a run gives.
#[derive(Drop)]
pub(crate) struct Ran {
    /// The exit status.
    pub(crate) status: u8,
    /// What went out.
    pub(crate) output: Vec<u8>,
    /// What is said beside it, with why the command stopped, where it did.
    pub(crate) notes: Vec<u8>,
}

/// Runs the command that was handed over.
pub(crate) fn answer(alloc: Global, handed: &Handed) -> Ran
    ensures gives { Gives handed.now.words.now handed.now.paths.now handed.now.sizes.now
        handed.now.contents.now result.output.items result.status }
    ensures most { result.status ≤ 3 }
{
    let bytes = Vec::new(alloc);
    let mut output = Remembering::new(bytes);
    let mut notes = Vec::new(alloc);
    let ran = run(alloc, handed, &mut output, &mut notes);
    let outcome = written_in_memory(ran, &mut output);
    let status = exit_status(&outcome);
    note_stop(alloc, &outcome, &mut notes);
    Ran {
        status,
        output: output.inner,
        notes,
    }
}

/// Runs the command, whose output and notes are added to `output` and `notes`.
fn run(
    alloc: Global,
    handed: &Handed,
    output: &mut Remembering<Vec<u8>>,
    notes: &mut Vec<u8>,
) -> Result<Status, Stop>
    ensures ok { IfOk result (λ status. IsOutput handed.now.words.now handed.now.paths.now
        handed.now.sizes.now handed.now.contents.now output.old.inner.items
        output.new.inner.items status) }
    ensures stopped { IsErr result → ¬ IsRefused result output.new.error
        → (output.new.inner ≡ output.old.inner) ⊎ HasBegun handed.now.words.now
        handed.now.paths.now handed.now.sizes.now handed.now.contents.now
        output.old.inner.items output.new.inner.items }
{
    let words = words_in(alloc, handed.words)?;
    let files = files_in(alloc, handed)?;
    let memory = Memory::of(alloc, files)?;
    run_to(&memory, words.as_slice(), output, notes)
}

/// The outcome of a command whose output goes to memory: where that was refused, memory was, and
/// nothing goes out.
fn written_in_memory(
    outcome: Result<Status, Stop>,
    output: &mut Remembering<Vec<u8>>,
) -> Result<Status, Stop>
    ensures kept { ¬ IsRefused outcome output.old.error
        → (result ≡ outcome) × (output.new.inner ≡ output.old.inner) }
    ensures refused { IsRefused outcome output.old.error
        → (result ≡ Err (Stop.OfFault (Fault.Run RunFault.OutOfMemory)))
        × (output.new.inner.items ≡ []) }
{
    if is_refused(&outcome, output) {
        output.inner.clear();
        return Err(Stop::from(RunFault::OutOfMemory));
    }
    outcome
}

/// Whether the command stopped and its output was refused.
fn is_refused(outcome: &Result<Status, Stop>, output: &Remembering<Vec<u8>>) -> bool
    ensures { IsTrue result ↔ IsRefused outcome.now output.now.error }
{
    match outcome {
        Ok(_) => false,
        Err(Stop::OfFault(Fault::Run(RunFault::Write))) => true,
        Err(_) => output.error.is_some(),
    }
}

/// Adds why the command stopped, where it did, as the program says it, if memory suffices.
fn note_stop(alloc: Global, outcome: &Result<Status, Stop>, notes: &mut Vec<u8>) {
    if let Err(stop) = outcome {
        let _ = add_line(alloc, stop, notes);
    }
}

/// Adds a line on why the command stopped.
fn add_line(alloc: Global, stop: &Stop, notes: &mut Vec<u8>) -> Result<(), AllocError> {
    notes.extend_from_slice(format!(in alloc; "itv: {stop}\n")?.as_bytes())
}
