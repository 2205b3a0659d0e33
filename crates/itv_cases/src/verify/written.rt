//! What is written where the output fails.
use crate::cases::case::inputs_in;
use crate::verify::verifications::text_of;
use it_dsse::check::SignatureCheck;
use it_outcome::{RunFault, Status};
use it_tables::RowFault;
use it_tables::devices::{Full, Pipe};
use it_tables::rings::ring_in;
use it_tables::row::text_in;
use it_verify::run_verify;
use serde_json::Value;
use std::alloc::Global;

/// The most room that a writer has: that of the report of the smallest delivery.
const MOST_ROOM: usize = 31;

/// How the verification of a row ends, and what it writes, where the writer takes one byte per call
/// and has room for none, for one and so on: a line for each.
pub(crate) fn written_in_each_room(alloc: Global, row: &Value) -> Result<String, RowFault> {
    let mut lines = String::new(alloc);
    for room in 0..=MOST_ROOM {
        lines.push_str(written_in(alloc, row, room)?.as_str())?;
    }
    Ok(lines)
}

/// The line of a writer with this much room.
fn written_in(alloc: Global, row: &Value, room: usize) -> Result<String, RowFault> {
    let mut pipe = Pipe {
        taken: Vec::new(alloc),
        room,
        most: 1,
        full: full_in(row)?,
    };
    let ended = verify_into(alloc, row, &mut pipe)?;
    let written = text_of(pipe.taken)?;
    Ok(format!(in alloc; "{ended:?} {:?}\n", written.as_str())?)
}

/// How the verification of a row ends, with its report written into a pipe.
fn verify_into(
    alloc: Global,
    row: &Value,
    pipe: &mut Pipe,
) -> Result<Result<Status, RunFault>, RowFault> {
    let inputs = inputs_in(alloc, row)?;
    let panel: [Box<dyn SignatureCheck>; 1] = [Box::new(alloc, ring_in(alloc, row)?)?];
    Ok(run_verify(alloc, &inputs, &panel, pipe))
}

/// How the writer of a row answers once it is full.
fn full_in(row: &Value) -> Result<Full, RowFault> {
    match text_in(row, "full")? {
        "error" => Ok(Full::AnswersAnError),
        "nothing" => Ok(Full::TakesNothing),
        _ => Err(RowFault::BadMember("full")),
    }
}
