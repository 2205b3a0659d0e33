//! `itv match`: whether a pattern matches a path.
ghost use Rattle.std.specs.Prelude.{◌≡◌, IfErr, IfOk, IsErrOf};
ghost use Rattle.std.specs.Io.KnownBytes.{Appends};
ghost use Rattle.it_base.specs.Writing.{AppendsBeginning};
ghost use Rattle.it_commands.specs.MatchOutput.{IsMatchOutput};
ghost use Rattle.it_outcome.specs.Outcome.{IsOutputFault};

use it_glob::Pattern;
use it_outcome::output::{Output, put};
use it_outcome::{RunFault, Status};
use std::alloc::{AllocError, Global};
use std::io::Write;

/// Writes whether the pattern matches the whole path: `yes` or `no`, and a line feed. The answer is
/// `Good` for yes and `Refused` for no.
///
/// # Errors
///
/// `Write` where the output could not be written; a beginning of it went out. `OutOfMemory` where
/// memory was refused; nothing went out.
pub fn run_match<W: Write>(
    alloc: Global,
    pattern: &str,
    path: &str,
    out: &mut W,
) -> Result<Status, RunFault>
    ensures ok { IfOk result (λ status. (text : _) × IsMatchOutput pattern.now path.now text status
        × Appends (W.contents out.old) (W.contents out.new) text) }
    ensures write { IsErrOf result RunFault.Write → (text : _) × (status : _)
        × IsMatchOutput pattern.now path.now text status
        × AppendsBeginning (W.contents out.old) (W.contents out.new) text }
    ensures memory { IsErrOf result RunFault.OutOfMemory → out.new ≡ out.old }
    ensures faults { IfErr result IsOutputFault }
{
    let output = match_output(alloc, pattern, path)?;
    put(out, &output)
}

fn match_output(alloc: Global, pattern: &str, path: &str) -> Result<Output, AllocError>
    ensures { IfOk result (λ output. IsMatchOutput pattern.now path.now
        output.text.items output.status) }
{
    let pattern = Pattern::read(alloc, pattern)?;
    let matches = pattern.matches(path);
    if matches {
        Ok(Output {
            text: Vec::from_slice(alloc, b"yes\n")?,
            status: Status::Good,
        })
    } else {
        Ok(Output {
            text: Vec::from_slice(alloc, b"no\n")?,
            status: Status::Refused,
        })
    }
}
