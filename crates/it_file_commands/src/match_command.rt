//! `itv match PATTERN PATH`.
ghost use Rattle.std.specs.Prelude.{◌≡◌, ◌≢◌, IfErr, IfOk};
ghost use Rattle.std.specs.Io.KnownBytes.{Appends};
ghost use Rattle.it_commands.specs.MatchOutput.{IsMatchOutput};

use it_commands::run_match;
use it_disk::Fault;
use it_outcome::{RunFault, Status};
use it_words::words::match_words::MatchWords;
use std::alloc::Global;
use std::io::Write;

/// Writes whether the pattern matches the path.
///
/// # Errors
///
/// `Fault::Run` where the output could not be written, or memory was refused.
pub fn run<W: Write>(alloc: Global, words: &MatchWords, out: &mut W) -> Result<Status, Fault>
    ensures ok { IfOk result (λ status. (text : _)
        × IsMatchOutput words.now.pattern words.now.path text status
        × Appends (W.contents out.old) (W.contents out.new) text) }
    ensures nothing { IfErr result (λ fault. fault ≢ Fault.Run RunFault.Write → out.new ≡ out.old) }
{
    let pattern = words.pattern.as_str();
    let path = words.path.as_str();
    Ok(run_match(alloc, pattern, path, out)?)
}
