//! `itv verify`, with notes for people.
ghost use Rattle.std.specs.Prelude.{◌≡◌, ◌≤◌, IfErr, IfOk, IsErrOf};
ghost use Rattle.std.specs.Io.KnownBytes.{Appends};
ghost use Rattle.it_base.specs.Writing.{AppendsBeginning};
ghost use Rattle.it_outcome.specs.Outcome.{IsOutputFault};
ghost use Rattle.it_verify_command.specs.VerifyOutputIn.{IsVerifyOutputIn};

use crate::answer::answer_to;
use crate::verification::Verification;
use crate::writing::write_answer;
use it_dsse::checks::Checks;
use it_outcome::{RunFault, Status};
use std::alloc::Global;
use std::io::Write;

/// Verifies delivered files, as `verify_by` of `it_verify` does, writes the output to `out`, and
/// then, except in the full form, writes the notes on the verdict to `notes`. What is `asked` says
/// what is verified, by which checks, and in which form. Where a summary is asked for and the
/// verdict refuses, the report in lines goes to `notes` before them.
///
/// The answer is `Good` where the verdict accepts, and `Refused` where it refuses. The notes affect
/// neither it nor the report: where memory is refused for them, or the checks refuse to check more
/// signatures, there are none, and where they cannot be written, a beginning of them went out.
///
/// # Errors
///
/// `Write` where the report could not be written; a beginning of it went out. `OutOfMemory` where
/// memory was refused for the verdict or the report, or the checks refused to check more signatures
/// for these; nothing went out. What is found and what stands behind a delivery are part of the
/// report in the full form.
pub fn verify_with_notes<C: Checks, W: Write, N: Write>(
    alloc: Global,
    asked: &Verification<C>,
    out: &mut W,
    notes: &mut N,
) -> Result<Status, RunFault>
    requires { asked.now.inputs.now.depth ≤ 8 }
    ensures ok { IfOk result (λ status. (text : _)
        × IsVerifyOutputIn asked.now.form.now (C.panel asked.now.checks.now)
        asked.now.vouched.now asked.now.inputs.now text status
        × Appends (W.contents out.old) (W.contents out.new) text) }
    ensures write { IsErrOf result RunFault.Write → (text : _) × (status : _)
        × IsVerifyOutputIn asked.now.form.now (C.panel asked.now.checks.now)
        asked.now.vouched.now asked.now.inputs.now text status
        × AppendsBeginning (W.contents out.old) (W.contents out.new) text }
    ensures memory { IsErrOf result RunFault.OutOfMemory → out.new ≡ out.old }
    ensures faults { IfErr result IsOutputFault }
{
    let answer = answer_to(alloc, asked)?;
    write_answer(alloc, asked, answer, out, notes)
}
