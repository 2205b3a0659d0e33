//! The notes on what of a trusted root is passed over.
ghost use Rattle.it_base.specs.Writing.{AppendsBeginning};

use it_base::writing::write_all_of;
use std::io::Write;

/// Writes the notes, as far as they can be written.
pub(crate) fn note_passed_over<N: Write>(text: &[u8], notes: &mut N)
    ensures { AppendsBeginning (N.contents notes.old) (N.contents notes.new) text.now }
{
    let _ = write_all_of(notes, text);
}
