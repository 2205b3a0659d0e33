//! What a command writes: its whole output is made first, and then written.
ghost use Rattle.std.specs.Prelude.{◌≡◌, IfOk, IfErr};
ghost use Rattle.std.specs.Io.KnownBytes.{Appends};
ghost use Rattle.it_base.specs.Writing.{AppendsBeginning};

use crate::outcome::{RunFault, Status};
use it_base::writing::{WriteError, write_all_of};
use std::io::Write;

/// A command's whole output, and what the command found.
#[derive(Drop)]
pub struct Output {
    /// The bytes of the output.
    pub text: Vec<u8>,
    /// What the command found.
    pub status: Status,
}

/// Writes the whole output, and returns the status. No write is retried.
///
/// # Errors
///
/// `Write` where the writer returned an error, or took nothing; a beginning of the output went out.
pub fn put<W: Write>(out: &mut W, output: &Output) -> Result<Status, RunFault>
    ensures ok { IfOk result (λ status. (status ≡ output.now.status)
        × Appends (W.contents out.old) (W.contents out.new) output.now.text.items) }
    ensures err { IfErr result (λ fault. (fault ≡ RunFault.Write)
        × AppendsBeginning (W.contents out.old) (W.contents out.new) output.now.text.items) }
{
    match put_text(out, output.text.as_slice()) {
        Ok(_) => Ok(output.status),
        Err(fault) => Err(fault),
    }
}

/// Writes the whole text, and returns `Good`. No write is retried.
///
/// # Errors
///
/// `Write` where the writer returned an error, or took nothing; a beginning of the text went out.
pub fn put_text<W: Write>(out: &mut W, text: &[u8]) -> Result<Status, RunFault>
    ensures ok { IfOk result (λ status. (status ≡ Status.Good)
        × Appends (W.contents out.old) (W.contents out.new) text.now) }
    ensures err { IfErr result (λ fault. (fault ≡ RunFault.Write)
        × AppendsBeginning (W.contents out.old) (W.contents out.new) text.now) }
{
    match write_all_of(out, text) {
        Ok(()) => Ok(Status::Good),
        Err(WriteError) => Err(RunFault::Write),
    }
}
