//! `itv payload ENVELOPE`.
ghost use Rattle.std.specs.Prelude.{◌≡◌, ◌≢◌, IfErr, IfOk};
ghost use Rattle.std.specs.Io.KnownBytes.{Appends};
ghost use Rattle.it_file_commands.specs.Commands.{ShowsPayload};

use it_commands::run_payload;
use it_disk::{Disk, Fault};
use it_outcome::{RunFault, Status};
use it_words::words::payload_words::PayloadWords;
use std::io::Write;

/// Reads the envelope, and writes its payload.
///
/// # Errors
///
/// The fault of an envelope that cannot be read, and `Fault::Run` where the output could not be
/// written, or memory was refused.
pub fn run<R: Disk + AllocGlobal, W: Write>(
    rt: &R,
    words: &PayloadWords,
    out: &mut W,
) -> Result<Status, Fault>
    ensures ok { IfOk result (λ status. (text : _)
        × ShowsPayload (R.holdings rt.now) words.now text status
        × Appends (W.contents out.old) (W.contents out.new) text) }
    ensures nothing { IfErr result (λ fault. fault ≢ Fault.Run RunFault.Write → out.new ≡ out.old) }
{
    let envelope = rt.file(words.envelope.as_str())?;
    Ok(run_payload(rt.alloc(), envelope.as_slice(), out)?)
}
