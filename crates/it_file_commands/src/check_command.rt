//! `itv check [--policy F] [--layout F]`.
ghost use Rattle.std.specs.Prelude.{◌≡◌, ◌≢◌, IfErr, IfOk};
ghost use Rattle.std.specs.Io.KnownBytes.{Appends};
ghost use Rattle.it_disk.specs.Reading.{IsGiven};
ghost use Rattle.it_file_commands.specs.Commands.{Checks};

use it_base::sequence::Sequence;
use it_base::text::Text;
use it_check::run_check;
use it_disk::{Disk, Fault, bytes};
use it_outcome::{RunFault, Status};
use it_words::words::check_words::CheckWords;
use std::io::Write;

/// Reads the policy and the layout, each where it is given, and writes what is found in them. What
/// is wrong with one that does not read goes to `notes`.
///
/// # Errors
///
/// The fault of a file that cannot be read, and `Fault::Run` where the output could not be written,
/// or memory was refused.
pub fn run<R: Disk + AllocGlobal, W: Write, N: Write>(
    rt: &R,
    words: &CheckWords,
    out: &mut W,
    notes: &mut N,
) -> Result<Status, Fault>
    ensures ok { IfOk result (λ status. (text : _)
        × Checks (R.holdings rt.now) words.now text status
        × Appends (W.contents out.old) (W.contents out.new) text) }
    ensures nothing { IfErr result (λ fault. fault ≢ Fault.Run RunFault.Write → out.new ≡ out.old) }
{
    let policy = document(rt, &words.policy)?;
    let layout = document(rt, &words.layout)?;
    Ok(run_check(rt.alloc(), &policy, &layout, out, notes)?)
}

/// What is at the path, where one is given.
fn document<R: Disk + AllocGlobal>(
    rt: &R,
    path: &Option<Text>,
) -> Result<Option<Sequence<u8>>, Fault>
    ensures { IfOk result (IsGiven (R.holdings rt.now).file path.now) }
{
    match path {
        Some(path) => Ok(Some(bytes(rt, path)?)),
        None => Ok(None),
    }
}
