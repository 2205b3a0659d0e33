//! Notes on the lines of a provenance that are bundles and vouch for nobody.
ghost use Rattle.it_base.specs.Writing.{AppendsBeginning};
ghost use Rattle.it_vouched.specs.SilentText.{silent_notes};
ghost use Rattle.it_program.specs.inside.SilentNotes.{notes_after};

use crate::stop::Stop;
use it_base::writing::write_all_of;
use it_outcome::Status;
use it_vouched::{SilentLine, notes_on_silent};
use std::alloc::Global;
use std::io::Write;

/// Writes the notes on these lines, where the delivery was refused, as far as memory suffices and
/// they can be written.
#[tactic(auto, using(it_file_commands::proofs::Noting::nothing_more))]
pub(crate) fn note_silent<N: Write>(
    alloc: Global,
    outcome: &Result<Status, Stop>,
    silent: &[SilentLine],
    notes: &mut N,
)
    ensures { AppendsBeginning (N.contents notes.old) (N.contents notes.new)
        (notes_after outcome.now silent.now) }
{
    match outcome {
        Ok(Status::Refused) => write_notes(alloc, silent, notes),
        Ok(Status::Good) => {}
        Err(_) => {}
    }
}

/// Writes the notes on these lines, as far as memory suffices and they can be written.
#[tactic(auto, using(it_file_commands::proofs::Noting::nothing_more))]
fn write_notes<N: Write>(alloc: Global, silent: &[SilentLine], notes: &mut N)
    ensures { AppendsBeginning (N.contents notes.old) (N.contents notes.new)
        (silent_notes silent.now) }
{
    if let Ok(text) = notes_on_silent(alloc, silent) {
        let _ = write_all_of(notes, text.as_slice());
    }
}
