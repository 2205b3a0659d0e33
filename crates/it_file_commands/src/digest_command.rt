//! `itv digest [--recursive] [--sha512] PATH..`.
ghost use Rattle.std.specs.Prelude.{◌≡◌, ◌≢◌, ◌⊎◌, Ok, IfErr, IfOk, take};
ghost use Rattle.std.specs.Io.KnownBytes.{Appends};
ghost use Rattle.it_digest.specs.Sums.{algorithm_of};
ghost use Rattle.it_commands.specs.DigestOutput.{IsDigestLine};
ghost use Rattle.it_file_commands.specs.Commands.{AreLinesOf, IsLineOf, ListsDigests};
ghost use Rattle.it_file_commands.specs.Commands.{asked_algorithm};
ghost use Rattle.it_file_commands.specs.Stopped.{ListsFirst};

use crate::remembering::Remembering;
use it_base::text::Text;
use it_commands::{check_name, run_digest, run_digest512};
use it_digest::reader::DigestFault;
use it_digest::sums::ListAlgorithm;
use it_disk::{Disk, Fault, Shown};
use it_files_below::files_at_each;
use it_outcome::{RunFault, Status};
use it_words::words::digest_words::DigestWords;
use std::alloc::{AllocError, Global};
use std::io;
use std::io::{Read, Write};

/// How many bytes a file may have.
const MOST_BYTES: u64 = 1_099_511_627_776;

/// Writes the line of each file that the words name, file by file, by SHA-256 or, with `--sha512`,
/// by SHA-512. With `--recursive` all folders
/// are read before the first line is written. The lines before a file that fails remain.
///
/// # Errors
///
/// The fault of a path that cannot be read, or of a file that has no line, and `Fault::Run` where
/// the output could not be written, or memory was refused.
pub fn run<R: Disk + AllocGlobal, W: Write>(
    rt: &R,
    words: &DigestWords,
    out: &mut W,
) -> Result<Status, Fault>
    ensures ok { IfOk result (λ status. (text : _)
        × ListsDigests (R.holdings rt.now) words.now text status
        × Appends (W.contents out.old) (W.contents out.new) text) }
    ensures stopped { IfErr result (λ fault. fault ≢ Fault.Run RunFault.Write
        → (out.new ≡ out.old) ⊎ ListsFirst (R.holdings rt.now) words.now (W.contents out.old)
        (W.contents out.new)) }
{
    let paths = words.paths.as_slice();
    let algorithm = algorithm_asked_by(words);
    if words.recursive {
        let files = files_at_each(rt, paths)?;
        digest_files(rt, algorithm, files.as_slice(), out)?;
    } else {
        digest_files(rt, algorithm, paths, out)?;
    }
    Ok(Status::Good)
}

fn algorithm_asked_by(words: &DigestWords) -> ListAlgorithm
    ensures { algorithm_of result ≡ asked_algorithm words.now }
{
    if words.sha512 {
        ListAlgorithm::Sha512
    } else {
        ListAlgorithm::Sha256
    }
}

fn digest_files<R: Disk + AllocGlobal, W: Write>(
    rt: &R,
    algorithm: ListAlgorithm,
    files: &[Text],
    out: &mut W,
) -> Result<(), Fault>
    ensures ok { IfOk result (λ _. (text : _)
        × AreLinesOf (R.holdings rt.now) (algorithm_of algorithm) files.now text
        × Appends (W.contents out.old) (W.contents out.new) text) }
    ensures stopped { IfErr result (λ fault. fault ≢ Fault.Run RunFault.Write
        → (count : _) × (text : _)
        × AreLinesOf (R.holdings rt.now) (algorithm_of algorithm) (take count files.now) text
        × Appends (W.contents out.old) (W.contents out.new) text) }
{
    for file in files {
        digest_file(rt, algorithm, file, out)?;
    }
    Ok(())
}

fn digest_file<R: Disk + AllocGlobal, W: Write>(
    rt: &R,
    algorithm: ListAlgorithm,
    file: &Text,
    out: &mut W,
) -> Result<(), Fault>
    ensures ok { IfOk result (λ _. (line : _)
        × IsLineOf (R.holdings rt.now) (algorithm_of algorithm) file.now line
        × Appends (W.contents out.old) (W.contents out.new) line) }
    ensures nothing { IfErr result (λ fault. fault ≢ Fault.Run RunFault.Write → out.new ≡ out.old) }
{
    let alloc = rt.alloc();
    let path = file.as_str();
    if let Err(fault) = check_name(path) {
        return Err(told(alloc, path, fault, None)?);
    }
    let mut input = Remembering::new(rt.open(path)?);
    match write_line(alloc, algorithm, path, &mut input, out) {
        Ok(_) => Ok(()),
        Err(fault) => Err(told(alloc, path, fault, input.error)?),
    }
}

/// Writes the line of a file, of what its reader gives.
fn write_line<I: Read, W: Write>(
    alloc: Global,
    algorithm: ListAlgorithm,
    path: &str,
    input: &mut I,
    out: &mut W,
) -> Result<Status, RunFault>
    ensures ok { IfOk result (λ status. (status ≡ Status.Good) × (text : _)
        × IsDigestLine (algorithm_of algorithm) (I.remaining input.old) (I.remaining input.new)
        1099511627776 path.now text × Appends (W.contents out.old) (W.contents out.new) text) }
    ensures nothing { IfErr result (λ fault. fault ≢ RunFault.Write → out.new ≡ out.old) }
{
    match algorithm {
        ListAlgorithm::Sha256 => run_digest(alloc, path, input, MOST_BYTES, out),
        ListAlgorithm::Sha512 => run_digest512(alloc, path, input, MOST_BYTES, out),
    }
}

/// The fault of a file that has no line, with the last error that its reader returned.
fn told(
    alloc: Global,
    path: &str,
    fault: RunFault,
    error: Option<io::Error>,
) -> Result<Fault, AllocError>
    ensures { fault ≡ RunFault.Write → result ≡ Ok (Fault.Run RunFault.Write) }
{
    match fault {
        RunFault::BadName => Ok(Fault::Unlistable {
            path: Shown::of(alloc, path)?,
        }),
        RunFault::Digest(DigestFault::TooLarge) => Ok(Fault::TooLarge {
            path: Shown::of(alloc, path)?,
            limit: MOST_BYTES,
        }),
        RunFault::Digest(DigestFault::Read) => {
            let error = error.unwrap_or(io::Error::from(io::ErrorKind::Other));
            Fault::unreadable(alloc, path, &error)
        }
        fault => Ok(Fault::Run(fault)),
    }
}
