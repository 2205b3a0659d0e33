//! `itv pae BODY --type TYPE`.
ghost use Rattle.std.specs.Prelude.{◌≡◌, ◌≢◌, IfErr, IfOk};
ghost use Rattle.std.specs.Io.KnownBytes.{Appends};
ghost use Rattle.it_file_commands.specs.Commands.{Encodes};

use it_commands::run_pae;
use it_disk::{Disk, Fault};
use it_outcome::{RunFault, Status};
use it_words::words::pae_words::PaeWords;
use std::io::Write;

/// Reads the body, and writes what is signed for it.
///
/// # Errors
///
/// The fault of a body that cannot be read, and `Fault::Run` where the output could not be written,
/// or memory was refused.
pub fn run<R: Disk + AllocGlobal, W: Write>(
    rt: &R,
    words: &PaeWords,
    out: &mut W,
) -> Result<Status, Fault>
    ensures ok { IfOk result (λ status. (text : _)
        × Encodes (R.holdings rt.now) words.now text status
        × Appends (W.contents out.old) (W.contents out.new) text) }
    ensures nothing { IfErr result (λ fault. fault ≢ Fault.Run RunFault.Write → out.new ≡ out.old) }
{
    let body = rt.file(words.body.as_str())?;
    let kind = words.kind.as_str();
    Ok(run_pae(rt.alloc(), kind, body.as_slice(), out)?)
}
