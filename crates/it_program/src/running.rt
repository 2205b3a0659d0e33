//! A command, run by its words.
ghost use Rattle.std.specs.Prelude.{◌≡◌, ◌≢◌, ◌⊎◌, None, IfErr, IfOk, IsErrOf, map};
ghost use Rattle.std.specs.Prelude.{string_bytes};
ghost use Rattle.std.specs.Io.KnownBytes.{Appends};
ghost use Rattle.it_words.specs.Words.{AreWordsOf, GoesNoDeeper};
ghost use Rattle.it_program.specs.Commands.{IsOutputOf};
ghost use Rattle.it_program.specs.Stopped.{IsAllowed, IsBegun, IsFoundAgainst, NamesAllowed};
ghost use Rattle.it_program.specs.Stopped.{NamesBegun, NamesFoundAgainst};

use crate::size_note::write_size_note;
use crate::stop::Stop;
use crate::verify_command;
use it_disk::{Disk, Fault};
use it_file_commands::{
    Remembering, check_command, digest_command, key_command, link_command, match_command,
    pae_command, payload_command, sign_command, signed_command, statement_command,
};
use it_outcome::{RunFault, Status};
use it_words::words::{Words, read_words};
use std::io::Write;

/// Runs the command that the words name, and, where the system did not take its output, says why.
/// Notes beside the output go to `notes`. The first word is the program's name.
///
/// # Errors
///
/// Those of `run_words`, but `Fault::Unwritable` where the system said why it did not take the
/// output.
pub fn run_to<R: Disk + AllocGlobal, W: Write, N: Write>(
    rt: &R,
    words: &[String],
    out: &mut Remembering<W>,
    notes: &mut N,
) -> Result<Status, Stop>
    ensures ok { IfOk result (λ status. (command : _) × (text : _)
        × AreWordsOf (map string_bytes words.now) command
        × IsOutputOf (R.holdings rt.now) command text status
        × Appends (W.contents out.old.inner) (W.contents out.new.inner) text) }
    ensures stopped { IfErr result (λ stop. stop ≢ Stop.OfFault (Fault.Run RunFault.Write)
        → out.new.error ≡ None → (out.new.inner ≡ out.old.inner)
        ⊎ NamesBegun (R.holdings rt.now) (map string_bytes words.now)
        (W.contents out.old.inner) (W.contents out.new.inner)) }
    ensures findings { IsErrOf result Stop.Findings
        → NamesFoundAgainst (R.holdings rt.now) (map string_bytes words.now)
        (W.contents out.old.inner) (W.contents out.new.inner) }
    ensures spent { IfErr result (NamesAllowed (map string_bytes words.now)) }
{
    let outcome = run_words(rt, words, out, notes);
    if outcome.is_ok() {
        write_size_note(rt.alloc(), out.written, notes);
    }
    match (outcome, out.error) {
        (Err(Stop::OfFault(Fault::Run(RunFault::Write))), Some(error)) => {
            Err(Stop::OfFault(Fault::of_output(rt.alloc(), &error)))
        }
        (outcome, _) => outcome,
    }
}

/// Runs the command that the words name. Notes beside its output go to `notes`. The first word is
/// the program's name.
///
/// # Errors
///
/// `Fault::Words` where the words do not parse, `Fault::Run` where the command stopped,
/// `Stop::Findings` where `verify --strict` found something in what it would have accepted, and
/// otherwise the fault of the file, folder, line or key that kept it from running. Then nothing has
/// gone out, except for `digest` the lines of earlier files, for `verify --strict --json=2` what it
/// found, and, where the output could not be written, a beginning of it.
pub fn run_words<R: Disk + AllocGlobal, W: Write, N: Write>(
    rt: &R,
    words: &[String],
    out: &mut W,
    notes: &mut N,
) -> Result<Status, Stop>
    ensures ok { IfOk result (λ status. (command : _) × (text : _)
        × AreWordsOf (map string_bytes words.now) command
        × IsOutputOf (R.holdings rt.now) command text status
        × Appends (W.contents out.old) (W.contents out.new) text) }
    ensures stopped { IfErr result (λ stop. stop ≢ Stop.OfFault (Fault.Run RunFault.Write)
        → (out.new ≡ out.old)
        ⊎ NamesBegun (R.holdings rt.now) (map string_bytes words.now) (W.contents out.old)
        (W.contents out.new)) }
    ensures findings { IsErrOf result Stop.Findings
        → NamesFoundAgainst (R.holdings rt.now) (map string_bytes words.now) (W.contents out.old)
        (W.contents out.new) }
    ensures spent { IfErr result (NamesAllowed (map string_bytes words.now)) }
{
    let command = read_words(rt.alloc(), words)?;
    run_command(rt, &command, out, notes)
}

fn run_command<R: Disk + AllocGlobal, W: Write, N: Write>(
    rt: &R,
    command: &Words,
    out: &mut W,
    notes: &mut N,
) -> Result<Status, Stop>
    requires { GoesNoDeeper command.now }
    ensures ok { IfOk result (λ status. (text : _)
        × IsOutputOf (R.holdings rt.now) command.now text status
        × Appends (W.contents out.old) (W.contents out.new) text) }
    ensures stopped { IfErr result (λ stop. stop ≢ Stop.OfFault (Fault.Run RunFault.Write)
        → (out.new ≡ out.old)
        ⊎ IsBegun (R.holdings rt.now) command.now (W.contents out.old) (W.contents out.new)) }
    ensures findings { IsErrOf result Stop.Findings
        → IsFoundAgainst (R.holdings rt.now) command.now (W.contents out.old)
        (W.contents out.new) }
    ensures spent { IfErr result (IsAllowed command.now) }
{
    match command {
        Words::Signed(words) => Ok(signed_command::run(rt, words, out, notes)?),
        Words::Match(words) => Ok(match_command::run(rt.alloc(), words, out)?),
        Words::Pae(words) => Ok(pae_command::run(rt, words, out)?),
        Words::Sign(words) => Ok(sign_command::run(rt, words, out, notes)?),
        Words::Digest(words) => Ok(digest_command::run(rt, words, out)?),
        Words::Link(words) => Ok(link_command::run(rt, words, out)?),
        Words::Statement(words) => Ok(statement_command::run(rt, words, out)?),
        Words::Payload(words) => Ok(payload_command::run(rt, words, out)?),
        Words::Key(words) => Ok(key_command::run(rt, words, out)?),
        Words::Check(words) => Ok(check_command::run(rt, words, out, notes)?),
        Words::Verify(words) => verify_command::run(rt, words, out, notes),
    }
}
