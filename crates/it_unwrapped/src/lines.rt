//! The lines of a provenance in which each bundle is replaced by its envelope.
ghost use Rattle.std.specs.Prelude.{◌≡◌, ◌++◌, IfOk, OnOk};
ghost use Rattle.it_digest.specs.Sums.{lines_of};
ghost use Rattle.it_dsse.specs.Envelope.{EnvelopeOf};
ghost use Rattle.it_dsse.specs.Written.{written_form};
ghost use Rattle.it_unwrapped.specs.Lines.{AreUnwrapped};
ghost use Rattle.it_unwrapped.specs.inside.Added.{IsAdded};

use it_base::sequence::Sequence;
use it_bundle::read_bundle;
use it_digest::sums::split_line;
use it_dsse::envelope::Envelope;
use it_dsse::written::WriteFault;
use std::alloc::{AllocError, Global};

/// The lines of a provenance, in which each bundle is replaced by the written form of its envelope.
/// Each line keeps its number, and has a line feed after it. A line that is no bundle stays as it
/// was.
///
/// # Errors
///
/// `AllocError` where memory was refused.
pub fn unwrapped_lines(alloc: Global, provenance: &[u8]) -> Result<Sequence<u8>, AllocError>
    ensures { IfOk result
        (λ lines. AreUnwrapped (lines_of provenance.now) (lines_of lines)) }
{
    let mut lines = Vec::new(alloc);
    let mut rest = provenance;
    while !rest.is_empty() {
        let (line, after) = split_line(rest);
        add_unwrapped(alloc, line, &mut lines)?;
        lines.push(b'\n')?;
        rest = after;
    }
    Ok(Sequence::from(lines))
}

/// Adds a line to the bytes, or the envelope of the bundle that it is.
fn add_unwrapped(alloc: Global, line: &[u8], lines: &mut Vec<u8>) -> Result<(), AllocError>
    ensures { OnOk result (IsAdded line.now lines.old.items lines.new.items) }
{
    match read_bundle(alloc, line)? {
        Some(bundle) => add_envelope(alloc, &bundle.envelope, lines),
        None => lines.extend_from_slice(line),
    }
}

/// Adds the written form of an envelope to the bytes.
fn add_envelope(alloc: Global, envelope: &Envelope, lines: &mut Vec<u8>) -> Result<(), AllocError>
    ensures { OnOk result ((lines.new.items ≡ lines.old.items ++ written_form envelope.now)
        × EnvelopeOf (written_form envelope.now) envelope.now) }
{
    match envelope.write(alloc, lines) {
        Ok(()) => Ok(()),
        // What is written to a vector fails only where memory was refused.
        Err(WriteFault::Write | WriteFault::OutOfMemory) => Err(AllocError),
    }
}
