//! `itv verify --strict`, with notes for people.
ghost use Rattle.std.specs.Prelude.{◌≡◌, ◌≢◌, ◌≤◌, IfErr, IfOk, IsErrOf};
ghost use Rattle.std.specs.Io.KnownBytes.{Appends};
ghost use Rattle.it_base.specs.Writing.{AppendsBeginning};
ghost use Rattle.it_verify_command.specs.FoundOutput.{AreTold};
ghost use Rattle.it_verify_command.specs.Strictly.{HasFindings, IsStrictOutput, StandsStrictly};
ghost use Rattle.it_verify_command.specs.VerifyOutputIn.{IsVerifyOutputIn};

use crate::output_form::OutputForm;
use crate::strict_answer::{StrictAnswer, strict_answer};
use crate::strict_fault::StrictFault;
use crate::telling::tell_found;
use crate::verification::Verification;
use crate::writing::write_answer;
use it_dsse::checks::Checks;
use it_outcome::{RunFault, Status};
use std::alloc::Global;
use std::io::Write;

/// Verifies delivered files, as is `asked` and as `verify_with_notes` does, and writes the same to
/// `out` and `notes`, but where the verdict accepts and something is found, only that is told: in
/// the full form it is the output, as one JSON object, and otherwise its lines go to `notes`, as
/// far as they can be written.
///
/// # Errors
///
/// `Findings` where the verdict accepts and something is found, once that is told. `Run` with
/// `Write` where the output could not be written; a beginning of it went out. `Run` with
/// `OutOfMemory` where memory was refused for the verdict, for what is found or for the output, or
/// the checks refused to check more signatures for these; nothing went out.
pub fn verify_strictly<C: Checks, W: Write, N: Write>(
    alloc: Global,
    asked: &Verification<C>,
    out: &mut W,
    notes: &mut N,
) -> Result<Status, StrictFault>
    requires { asked.now.inputs.now.depth ≤ 8 }
    ensures ok { IfOk result (λ status. (text : _)
        × IsVerifyOutputIn asked.now.form.now (C.panel asked.now.checks.now)
        asked.now.vouched.now asked.now.inputs.now text status
        × Appends (W.contents out.old) (W.contents out.new) text) }
    ensures stands { IfOk result (λ status. status ≡ Status.Good
        → StandsStrictly (C.panel asked.now.checks.now) asked.now.inputs.now) }
    ensures findings { IsErrOf result StrictFault.Findings → (text : _)
        × HasFindings asked.now.form.now (C.panel asked.now.checks.now) asked.now.inputs.now text
        × AreTold asked.now.form.now (W.contents out.old) (W.contents out.new)
        (N.contents notes.old) (N.contents notes.new) text }
    ensures write { IsErrOf result (StrictFault.Run RunFault.Write) → (text : _)
        × IsStrictOutput asked.now.form.now (C.panel asked.now.checks.now)
        asked.now.vouched.now asked.now.inputs.now text
        × AppendsBeginning (W.contents out.old) (W.contents out.new) text }
    ensures kept { IfErr result (λ fault. fault ≢ StrictFault.Run RunFault.Write
        → fault ≢ StrictFault.Findings → out.new ≡ out.old) }
    ensures lines { IsErrOf result StrictFault.Findings → asked.now.form.now ≢ OutputForm.Full
        → out.new ≡ out.old }
{
    match strict_answer(alloc, asked)? {
        StrictAnswer::Stands(answer) => Ok(write_answer(alloc, asked, answer, out, notes)?),
        StrictAnswer::Against(found) => {
            tell_found(alloc, &found, asked.form, out, notes)?;
            Err(StrictFault::Findings)
        }
    }
}
