//! `itv verify`: whether delivered files were made as the owners prescribed.
ghost use Rattle.std.specs.Prelude.{◌≡◌, ◌≢◌, ◌≤◌, [], IfErr, IfOk, IsErrOf, IsTrue, unwrap_or};
ghost use Rattle.std.specs.Io.KnownBytes.{Appends};
ghost use Rattle.it_verify_command.specs.Strictly.{HasFindings, StandsStrictly};
ghost use Rattle.it_verify_command.specs.VerifyOutputIn.{IsVerifyOutputIn};
ghost use Rattle.it_program.specs.Commands.{FindsAgainst, Verifies, form_asked};
ghost use Rattle.it_program.specs.Stopped.{IsAllowed};
ghost use Rattle.it_program.specs.inside.Spent.{IsToldSpent};
ghost use Rattle.it_words.specs.declared.words.Words.TheVariants.{Verify};

use crate::asked::Asked;
use crate::given::{Given, read_given};
use crate::passed_over::note_passed_over;
use crate::silent_notes::note_silent;
use crate::spent::Spent;
use crate::stop::Stop;
use it_command_checks::command_checks::CommandChecks;
use it_disk::{Disk, Fault, note_left_out};
use it_dsse::checks::Checks;
use it_outcome::{RunFault, Status};
use it_verify_command::output_form::OutputForm;
use it_verify_command::verification::Verification;
use it_verify_command::verify_strictly::verify_strictly;
use it_verify_command::verify_with_notes::verify_with_notes;
use it_vouched::Vouched;
use it_words::words::verify_words::VerifyWords;
use std::alloc::Global;
use std::io::Write;

/// Reads all files and folders and the rings, notes what is left out and what of the trusted root
/// is not used, and writes the report of the verdict and then the notes on it. With `--strict` it
/// stops where something is found in what it would accept: with `--json=2` that goes out, and
/// otherwise its lines go to `notes`. With `--summary` the summary is written in place of a report
/// that accepts, and a report that refuses goes to `notes`.
pub(crate) fn run<R: Disk + AllocGlobal, W: Write, N: Write>(
    rt: &R,
    words: &VerifyWords,
    out: &mut W,
    notes: &mut N,
) -> Result<Status, Stop>
    requires { words.now.depth ≤ 8 }
    ensures ok { IfOk result (λ status. (text : _)
        × Verifies (R.holdings rt.now) words.now text status
        × Appends (W.contents out.old) (W.contents out.new) text) }
    ensures nothing { IfErr result (λ stop. stop ≢ Stop.OfFault (Fault.Run RunFault.Write)
        → stop ≢ Stop.Findings → out.new ≡ out.old) }
    ensures findings { IsErrOf result Stop.Findings → FindsAgainst (R.holdings rt.now) words.now
        (W.contents out.old) (W.contents out.new) }
    ensures lines { IsErrOf result Stop.Findings → form_asked words.now.output ≢ OutputForm.Full
        → out.new ≡ out.old }
    ensures spent { IfErr result (IsAllowed (Verify words.now)) }
{
    let alloc = rt.alloc();
    let asked = Asked::by(alloc, words)?;
    let given = read_given(rt, words)?;
    note_left_out(alloc, given.left_out.as_slice(), notes);
    note_passed_over(given.passed_over.as_slice(), notes);
    let verification = Verification {
        inputs: &given.inputs,
        checks: &given.checks,
        vouched: vouched_in(&given.checks),
        form: &asked.form,
    };
    let outcome = verify_as_asked(alloc, &verification, asked.strict, out, notes);
    note_silent(alloc, &outcome, given.silent.as_slice(), notes);
    told_spent(alloc, outcome, &given, words.most_checks)
}

/// What lines of the provenance vouch for: nothing where no trusted root is given.
fn vouched_in(checks: &CommandChecks) -> &[Vouched]
    ensures { result.now ≡ unwrap_or checks.now.vouched [] }
{
    match &checks.vouched {
        Some(lines) => lines.as_slice(),
        None => &[],
    }
}

/// The outcome of a verification of what is given, where that of lack of memory is told as it is:
/// that more signatures would have had to be checked.
fn told_spent(
    alloc: Global,
    outcome: Result<Status, Stop>,
    given: &Given,
    most_checks: u64,
) -> Result<Status, Stop>
    ensures { IsToldSpent most_checks outcome result }
{
    match outcome {
        Err(Stop::OfFault(Fault::Run(RunFault::OutOfMemory))) if given.checks.is_spent() => {
            let links = given.inputs.links.files();
            Err(Stop::TooManyChecks(Spent::on(alloc, most_checks, links)))
        }
        outcome => outcome,
    }
}

/// Verifies the inputs by the checks, in the form that is asked for and, where that is asked,
/// strictly.
fn verify_as_asked<C: Checks, W: Write, N: Write>(
    alloc: Global,
    asked: &Verification<C>,
    strict: bool,
    out: &mut W,
    notes: &mut N,
) -> Result<Status, Stop>
    requires { asked.now.inputs.now.depth ≤ 8 }
    ensures ok { IfOk result (λ status. (text : _)
        × IsVerifyOutputIn asked.now.form.now (C.panel asked.now.checks.now)
        asked.now.vouched.now asked.now.inputs.now text status
        × Appends (W.contents out.old) (W.contents out.new) text) }
    ensures stands { IfOk result (λ status. IsTrue strict → status ≡ Status.Good
        → StandsStrictly (C.panel asked.now.checks.now) asked.now.inputs.now) }
    ensures nothing { IfErr result (λ stop. stop ≢ Stop.OfFault (Fault.Run RunFault.Write)
        → stop ≢ Stop.Findings → out.new ≡ out.old) }
    ensures findings { IsErrOf result Stop.Findings → IsTrue strict
        × (text : _) × HasFindings asked.now.form.now (C.panel asked.now.checks.now)
        asked.now.inputs.now text
        × (asked.now.form.now ≡ OutputForm.Full
        → Appends (W.contents out.old) (W.contents out.new) text) }
    ensures lines { IsErrOf result Stop.Findings → asked.now.form.now ≢ OutputForm.Full
        → out.new ≡ out.old }
    ensures unspent { IfErr result (λ stop. (spent : _) → stop ≢ Stop.TooManyChecks spent) }
{
    if strict {
        Ok(verify_strictly(alloc, asked, out, notes)?)
    } else {
        Ok(verify_with_notes(alloc, asked, out, notes)?)
    }
}
