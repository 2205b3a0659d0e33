//! Writing bytes that are complete before the first of them is written.
ghost use Rattle.std.specs.Prelude.{OnOk, OnErr};
ghost use Rattle.std.specs.Io.KnownBytes.{Appends};
ghost use Rattle.it_base.specs.Writing.{AppendsBeginning};

use std::io::Write;

/// A writer returned an error, or accepted none of the bytes that it was given.
#[derive(Clone, Copy, Debug, PartialEq, Eq)]
pub struct WriteError;

/// Writes all of the bytes, in as many writes as the writer needs. No write is retried, and where
/// there are no bytes there is no write.
///
/// # Errors
///
/// `WriteError` at the first write that returns an error or 0; some of the bytes may have been
/// written.
pub fn write_all_of<W: Write>(out: &mut W, bytes: &[u8]) -> Result<(), WriteError>
    ensures ok { OnOk result (Appends (W.contents out.old) (W.contents out.new) bytes.now) }
    ensures err { OnErr result
        (AppendsBeginning (W.contents out.old) (W.contents out.new) bytes.now) }
{
    let mut at = 0;
    while at < bytes.len() {
        match out.write(&bytes[at..]) {
            Ok(0) => return Err(WriteError),
            Ok(count) => at += count,
            Err(_) => return Err(WriteError),
        }
    }
    Ok(())
}
