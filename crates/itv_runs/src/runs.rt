//! What whole runs of `itv` over files in memory give that no disk shows. A row is a run: the words
//! of a command, what is at the paths that it reads, and what it gives.
//!
//! - `run`: for a `command` over the files of the member `nodes`, the exit status, what went out,
//!   and the fault where the command stopped.
//! - `run to a full disk`: for a `command` whose output is not taken, and no reason given, the exit
//!   status and the fault.
//! - `records`: the names of the records in `folder`, each with how many bytes it has.
//! - `count words`: how many words a command line has.
//! - `read`: what is read of a file up to `limit`, with `room` for this many bytes.
mod content;
mod fake_files;
mod fake_line;
mod full;
mod node;
mod ran;

use crate::runs::content::Content;
use crate::runs::fake_files::FakeFiles;
use crate::runs::fake_line::FakeLine;
use crate::runs::full::Full;
use crate::runs::node::{Node, Placed, node_in, placed_in};
use crate::runs::ran::run_over;
use it_disk::{Disk, read_limited};
use it_program::{Remembering, exit_status, run_to, words};
use it_tables::RowFault;
use it_tables::devices::words as words_of;
use it_tables::row::{bytes_in, list_in, number_in, text_in};
use serde_json::Value;
use std::alloc::Global;
use std::str;

/// What a row gives, by the call of this name.
pub(crate) fn answer(alloc: Global, call: &str, row: &Value) -> Result<String, RowFault> {
    match call {
        "run" => told_run(alloc, row),
        "records" => records(alloc, row),
        "run to a full disk" => run_to_full(alloc, row),
        "count words" => told_words(alloc, row),
        "read" => told_read(alloc, row),
        _ => Err(RowFault::UnknownCall),
    }
}

/// The exit status of the run of the row's command over its files, and what went out with the
/// fault.
fn told_run(alloc: Global, row: &Value) -> Result<String, RowFault> {
    let files = files_in(alloc, row)?;
    let ran = run_over(alloc, files.as_slice(), text_in(row, "command")?)?;
    let text = text_of(ran.text.as_slice())?;
    Ok(format!(in alloc; "{} {text}", ran.status)?)
}

/// The names of the records in a folder, each with how many bytes it has.
fn records(alloc: Global, row: &Value) -> Result<String, RowFault> {
    let files = files_in(alloc, row)?;
    let disk = (
        FakeFiles {
            files: files.as_slice(),
        },
        alloc,
    );
    let mut lines = String::new(alloc);
    match disk.records(text_in(row, "folder")?) {
        Ok(records) => {
            for (name, bytes) in records.as_slice() {
                let length = bytes.as_slice().len();
                let line = format!(in alloc; "{} {length}\n", name.as_str())?;
                lines.push_str(line.as_str())?;
            }
            Ok(lines)
        }
        Err(fault) => Ok(format!(in alloc; "{fault}")?),
    }
}

/// The files of a row.
fn files_in(alloc: Global, row: &Value) -> Result<Vec<Placed>, RowFault> {
    let mut files = Vec::new(alloc);
    for node in list_in(row, "nodes")? {
        files.push(placed_in(alloc, node)?)?;
    }
    Ok(files)
}

fn text_of(bytes: &[u8]) -> Result<&str, RowFault> {
    str::from_utf8(bytes)
        .ok()
        .ok_or(RowFault::BadMember("gives"))
}

/// The exit status of a command whose output is not taken, and its fault.
fn run_to_full(alloc: Global, row: &Value) -> Result<String, RowFault> {
    let words = words_of(alloc, text_in(row, "command")?)?;
    let disk = (FakeFiles { files: &[] }, alloc);
    let mut notes = Vec::new(alloc);
    let outcome = run_to(
        &disk,
        words.as_slice(),
        &mut Remembering::new(Full),
        &mut notes,
    );
    let status = exit_status(&outcome);
    match outcome {
        Ok(_) => Ok(format!(in alloc; "{status}")?),
        Err(stop) => Ok(format!(in alloc; "{status} {stop}")?),
    }
}

/// How many words a command line has, or what keeps them from being read. In the row, slashes
/// separate the words.
fn told_words(alloc: Global, row: &Value) -> Result<String, RowFault> {
    let line = bytes_in(alloc, row, "line")?;
    let each: Vec<&[u8]> = line.as_slice().split(|byte| *byte == b'/').collect(alloc)?;
    let words = words(&(
        FakeLine {
            words: each.as_slice(),
        },
        alloc,
    ));
    Ok(match words {
        Ok(words) => format!(in alloc; "{} words", words.len())?,
        Err(fault) => format!(in alloc; "{fault}")?,
    })
}

/// What is read of a file up to a limit, or that it has too many bytes.
fn told_read(alloc: Global, row: &Value) -> Result<String, RowFault> {
    let limit = number_in(row, "limit")?;
    let limit = u32::try_from(limit)
        .ok()
        .ok_or(RowFault::BadMember("limit"))?;
    let room = number_in(row, "room")? as usize;
    let Node::File(file) = node_in(alloc, row)? else {
        return Err(RowFault::BadMember("kind"));
    };
    match read_limited(alloc, Content::of(&file), u64::from(limit), room) {
        Ok(Some(bytes)) => Ok(format!(in alloc; "read {}", text_of(bytes.as_slice())?)?),
        Ok(None) => Ok(String::from_str(alloc, "too many")?),
        Err(error) => Ok(format!(in alloc; "{error}")?),
    }
}
