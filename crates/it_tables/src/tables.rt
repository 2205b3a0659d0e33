//! The tables that a program's words name.
ghost use Rattle.std.specs.Prelude.{◌≡◌, false, IfOk};
ghost use Rattle.std.specs.List.{AllZip};
ghost use Rattle.it_tables.specs.Outcome.{IsOutcomeOf, agrees};

use crate::fault::{Fault, exit_status};
use crate::outcome::{Outcome, all_agree, write_summary};
use crate::row_fault::RowFault;
use crate::trial::Trial;
use it_base::document::read_document;
use std::alloc::{AllocError, Global};
use std::process::ExitCode;
use std::rt::{Env, Files};
use std::{env, fs, io};

/// Tries the tables of the files that the program's words name. Writes each line that differs,
/// with its place, and how many lines agree. The status is 0 only where all do: 1
/// where one differs, 3 where memory was refused, and 2 where a line is not tried or a file cannot
/// be read, with a note that begins with the name of the `program`.
pub fn run_tables<R: Env + Files + Print + Eprint + AllocGlobal, T: Trial>(
    rt: &R,
    program: &str,
    trial: &T,
) -> ExitCode {
    let outcome = run_files(rt, trial);
    if let Err(fault) = &outcome {
        let _ = eprintln!(rt; "{program}: {fault}");
    }
    ExitCode::from(exit_status(&outcome))
}

fn run_files<R: Env + Files + Print + AllocGlobal, T: Trial>(
    rt: &R,
    trial: &T,
) -> Result<bool, Fault> {
    let mut outcomes = Vec::new(rt.alloc());
    for path in words(rt)? {
        let mut of_file = run_file(rt, path.as_str(), trial)?;
        outcomes.append(&mut of_file)?;
    }
    let written = write_summary(&mut io::writer(rt), outcomes.as_slice());
    written.map_err(|error| Fault::of_stream(&error, Fault::Write))?;
    Ok(all_agree(outcomes.as_slice()))
}

/// The words after the program's name.
fn words<R: Env + AllocGlobal>(rt: &R) -> Result<Vec<String>, Fault> {
    match env::args(rt) {
        Ok(words) => Ok(words.skip(1).collect(rt.alloc())?),
        Err(error) => Err(Fault::of_stream(&error, Fault::Words)),
    }
}

/// What came of the lines of a file.
fn run_file<R: Files + AllocGlobal, T: Trial>(
    rt: &R,
    path: &str,
    trial: &T,
) -> Result<Vec<Outcome>, Fault> {
    let alloc = rt.alloc();
    match fs::read(rt, path) {
        Ok(bytes) => {
            let lines = lines(alloc, bytes.as_slice())?;
            run_lines(alloc, path, lines.as_slice(), trial)
        }
        Err(error) => Err(Fault::of_file(alloc, path, &error)),
    }
}

/// The lines of a file, without their line feeds.
fn lines<'t>(alloc: Global, bytes: &'t [u8]) -> Result<Vec<&'t [u8]>, AllocError> {
    let text = bytes.strip_suffix(b"\n").unwrap_or(bytes);
    text.split(|byte| *byte == b'\n').collect(alloc)
}

/// What came of each line.
fn run_lines<T: Trial>(
    alloc: Global,
    path: &str,
    lines: &[&[u8]],
    trial: &T,
) -> Result<Vec<Outcome>, Fault>
    ensures { IfOk result (λ outcomes.
        AllZip (λ line. IsOutcomeOf T.is_difference line.now) lines.now outcomes.items) }
{
    let mut outcomes = Vec::new(alloc);
    for line in lines {
        let outcome = match outcome_of(alloc, path, outcomes.len(), line, trial) {
            Ok(outcome) => outcome,
            Err(reason) => return Err(Fault::of_row(alloc, path, outcomes.len(), reason)),
        };
        outcomes.push(outcome)?;
    }
    Ok(outcomes)
}

/// What came of a line. Lines are counted from 1, `index` from 0.
fn outcome_of<T: Trial>(
    alloc: Global,
    path: &str,
    index: usize,
    line: &[u8],
    trial: &T,
) -> Result<Outcome, RowFault>
    ensures { IfOk result (IsOutcomeOf T.is_difference line.now) }
{
    let document = read_document(alloc, line)?.ok_or(RowFault::NoDocument)?;
    match trial.difference(alloc, &document)? {
        Some(difference) => Ok(differs(alloc, path, index, difference.as_str())?),
        None => Ok(Outcome::Agrees),
    }
}

/// The outcome of a line that differs. Lines are counted from 1, `index` from 0.
fn differs(alloc: Global, path: &str, index: usize, difference: &str) -> Result<Outcome, AllocError>
    ensures { IfOk result (λ outcome. agrees outcome ≡ false) }
{
    let line = index.saturating_add(1);
    Ok(Outcome::Differs(format!(in alloc; "{path}, line {line} {difference}")?))
}
