//! What the commands of rows write to, and how they ended.
use it_base::document::member;
use it_tables::RowFault;
use it_tables::devices::{Full, Pipe};
use it_tables::row::{is_set, number_in};
use serde_json::Value;
use std::alloc::Global;
use std::fmt::Debug;
use std::str;

/// What the command of a row writes to: a writer with room for `room` bytes that takes at most
/// `most` per write; each is unlimited if the row does not give it. Once the writer is full, it
/// answers an error if `breaks` is set, and otherwise takes nothing.
///
/// # Errors
///
/// `BadMember` where `room` or `most` is no number.
pub(crate) fn pipe_of(alloc: Global, row: &Value) -> Result<Pipe, RowFault> {
    let full = if is_set(row, "breaks") {
        Full::AnswersAnError
    } else {
        Full::TakesNothing
    };
    Ok(Pipe {
        taken: Vec::new(alloc),
        room: count_or_most(row, "room")?,
        most: count_or_most(row, "most")?,
        full,
    })
}

/// The number of bytes that the member of this name gives, or the greatest if there is none.
fn count_or_most(row: &Value, name: &'static str) -> Result<usize, RowFault> {
    match member(row, name) {
        Some(_) => Ok(number_in(row, name)? as usize),
        None => Ok(usize::MAX),
    }
}

/// A line on how a command ended, and the text that it wrote.
///
/// # Errors
///
/// `BadMember` where that is no text; `OutOfMemory` where memory was refused.
pub(crate) fn ended<O: Debug>(alloc: Global, outcome: &O, pipe: &Pipe) -> Result<String, RowFault> {
    let text = str::from_utf8(pipe.taken.as_slice())
        .ok()
        .ok_or(RowFault::BadMember("gives"))?;
    Ok(format!(in alloc; "{outcome:?}\n{text}")?)
}
