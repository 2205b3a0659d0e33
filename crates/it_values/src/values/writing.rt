//! The writing of bytes to a pipe that has room for some of them.
use it_base::writing::write_all_of;
use it_tables::RowFault;
use it_tables::devices::{Full, Pipe};
use it_tables::row::{number_in, text_in};
use serde_json::Value;
use std::alloc::Global;

/// What a call on the writing of bytes answers.
pub(crate) fn answer(alloc: Global, call: &str, row: &Value) -> Result<String, RowFault> {
    match call {
        "all" => write_all(alloc, row),
        _ => Err(RowFault::UnknownCall),
    }
}

/// How the pipe of a row answers once it is full.
///
/// # Errors
///
/// `BadMember` where the row does not say it.
pub(crate) fn full_in(row: &Value) -> Result<Full, RowFault> {
    match text_in(row, "full")? {
        "answers an error" => Ok(Full::AnswersAnError),
        "takes nothing" => Ok(Full::TakesNothing),
        _ => Err(RowFault::BadMember("full")),
    }
}

/// What writing a text answers, and what the pipe took of it.
fn write_all(alloc: Global, row: &Value) -> Result<String, RowFault> {
    let mut pipe = Pipe {
        taken: Vec::new(alloc),
        room: number_in(row, "room")? as usize,
        most: 2,
        full: full_in(row)?,
    };
    let answer = write_all_of(&mut pipe, text_in(row, "text")?.as_bytes());
    let taken = String::from_utf8_lossy(alloc, pipe.taken.as_slice())?;
    Ok(format!(in alloc; "{answer:?} after {taken}")?)
}
