//! `itv statement --sums SUMS --builder ID --build-type TYPE [--parameters F]`.
ghost use Rattle.std.specs.Prelude.{◌≡◌, ◌≢◌, IfErr, IfOk};
ghost use Rattle.std.specs.Io.KnownBytes.{Appends};
ghost use Rattle.std.specs.Option.{option_copied};
ghost use Rattle.it_making.specs.StatementOutput.{IsStatementOutput};
ghost use Rattle.it_file_commands.specs.Commands.{MakesStatement};

use it_base::text::Text;
use it_disk::{Disk, Fault, Shown};
use it_making::{StatementParts, run_statement};
use it_outcome::{RunFault, Status};
use it_words::words::statement_words::StatementWords;
use std::alloc::{AllocError, Global};
use std::io::Write;

/// Reads the digest list, and the external parameters where they are given, and writes the
/// Statement.
///
/// # Errors
///
/// The fault of a file that cannot be read, of a bad line, of a list without a line, or of bad
/// parameters, and `Fault::Run` where the output could not be written, or memory was refused.
pub fn run<R: Disk + AllocGlobal, W: Write>(
    rt: &R,
    words: &StatementWords,
    out: &mut W,
) -> Result<Status, Fault>
    ensures ok { IfOk result (λ status. (text : _)
        × MakesStatement (R.holdings rt.now) words.now text status
        × Appends (W.contents out.old) (W.contents out.new) text) }
    ensures nothing { IfErr result (λ fault. fault ≢ Fault.Run RunFault.Write → out.new ≡ out.old) }
{
    let sums = rt.file(words.sums.as_str())?;
    match &words.parameters {
        None => state(rt.alloc(), words, sums.as_slice(), None, out),
        Some(path) => {
            let parameters = rt.file(path.as_str())?;
            let parameters = Some(parameters.as_slice());
            state(rt.alloc(), words, sums.as_slice(), parameters, out)
        }
    }
}

/// Writes the Statement of the digest list and the parameters.
fn state<W: Write>(
    alloc: Global,
    words: &StatementWords,
    sums: &[u8],
    parameters: Option<&[u8]>,
    out: &mut W,
) -> Result<Status, Fault>
    ensures ok { IfOk result (λ status. (status ≡ Status.Good) × (text : _)
        × IsStatementOutput sums.now words.now.build_type words.now.builder
        (option_copied parameters.entry) text
        × Appends (W.contents out.old) (W.contents out.new) text) }
    ensures nothing { IfErr result (λ fault. fault ≢ Fault.Run RunFault.Write → out.new ≡ out.old) }
{
    let parts = StatementParts {
        subjects: sums,
        build_type: words.build_type.as_str(),
        builder: words.builder.as_str(),
        parameters,
    };
    match run_statement(alloc, &parts, out) {
        Ok(status) => Ok(status),
        Err(RunFault::BadSubjects(line)) => Err(Fault::BadLine {
            path: Shown::of(alloc, words.sums.as_str())?,
            line,
        }),
        Err(RunFault::NoSubjects) => Err(Fault::NoSubjects {
            path: Shown::of(alloc, words.sums.as_str())?,
        }),
        Err(RunFault::BadParameters) => Err(bad_parameters(alloc, &words.parameters)?),
        Err(fault) => Err(Fault::Run(fault)),
    }
}

/// The fault of bad external parameters.
fn bad_parameters(alloc: Global, path: &Option<Text>) -> Result<Fault, AllocError> {
    let path = path.as_ref().map_or("", |path| path.as_str());
    Ok(Fault::BadParameters {
        path: Shown::of(alloc, path)?,
    })
}
