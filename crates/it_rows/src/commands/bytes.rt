//! The commands that look at no documents: a pattern, what is signed, and a digest.
use crate::commands::devices::{ended, pipe_of};
use it_commands::{run_digest, run_match, run_pae};
use it_tables::RowFault;
use it_tables::devices::Source;
use it_tables::row::{bytes_in, number_in, text_in};
use serde_json::Value;
use std::alloc::Global;
use std::str;

/// How asking whether the `pattern` matches the `path` ends.
///
/// # Errors
///
/// `BadMember` where a member is missing or unfit; `OutOfMemory` where memory was refused.
pub(crate) fn matches(alloc: Global, row: &Value) -> Result<String, RowFault> {
    let pattern = text_in(row, "pattern")?;
    let path = text_in(row, "path")?;
    let mut pipe = pipe_of(alloc, row)?;
    let outcome = run_match(alloc, pattern, path, &mut pipe);
    ended(alloc, &outcome, &pipe)
}

/// How writing what is signed for the `type` and the `body` ends.
///
/// # Errors
///
/// `BadMember` where a member is missing or unfit; `OutOfMemory` where memory was refused.
pub(crate) fn pae(alloc: Global, row: &Value) -> Result<String, RowFault> {
    let kind = text_in(row, "type")?;
    let body = bytes_in(alloc, row, "body")?;
    let mut pipe = pipe_of(alloc, row)?;
    let outcome = run_pae(alloc, kind, body.as_slice(), &mut pipe);
    ended(alloc, &outcome, &pipe)
}

/// How writing the line of the file at this `path` ends, where the file holds the `input` and files
/// may have up to `limit` bytes.
///
/// # Errors
///
/// `BadMember` where a member is missing or unfit; `OutOfMemory` where memory was refused.
pub(crate) fn digest(alloc: Global, row: &Value) -> Result<String, RowFault> {
    let path = text_in(row, "path")?;
    let limit = number_in(row, "limit")?;
    let input = bytes_in(alloc, row, "input")?;
    let mut pipe = pipe_of(alloc, row)?;
    let outcome = run_digest(alloc, path, &mut input.as_slice(), limit, &mut pipe);
    ended(alloc, &outcome, &pipe)
}

/// What is left of the `input` after its line was written, or could not be.
///
/// # Errors
///
/// `BadMember` where a member is missing or unfit; `OutOfMemory` where memory was refused.
pub(crate) fn digest_unread(alloc: Global, row: &Value) -> Result<String, RowFault> {
    let path = text_in(row, "path")?;
    let limit = number_in(row, "limit")?;
    let mut input = text_in(row, "input")?.as_bytes();
    let mut pipe = pipe_of(alloc, row)?;
    let _ = run_digest(alloc, path, &mut input, limit, &mut pipe);
    let left = str::from_utf8(input)
        .ok()
        .ok_or(RowFault::BadMember("input"))?;
    Ok(String::from_str(alloc, left)?)
}

/// How writing the line of a file ends where its reader fails at read number `fails_at`, counted
/// from 1.
///
/// # Errors
///
/// `BadMember` where a member is missing or unfit; `OutOfMemory` where memory was refused.
pub(crate) fn digest_of_broken(alloc: Global, row: &Value) -> Result<String, RowFault> {
    let path = text_in(row, "path")?;
    let limit = number_in(row, "limit")?;
    let mut input = Source {
        bytes: number_in(row, "bytes")?,
        reads: 0,
        fails_at: Some(number_in(row, "fails_at")?),
    };
    let mut pipe = pipe_of(alloc, row)?;
    let outcome = run_digest(alloc, path, &mut input, limit, &mut pipe);
    ended(alloc, &outcome, &pipe)
}
