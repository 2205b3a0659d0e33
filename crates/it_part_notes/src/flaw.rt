//! Why bytes are no JSON document.
ghost use Rattle.std.specs.Prelude.{IfOk, IfSome};
ghost use Rattle.std.specs.Bool.{OnTrue};
ghost use Rattle.it_part_notes.specs.Flaw.{BeginsAsUtf16, FirstLineReads, IsFlaw, StandsAt};

use crate::byte_at::stands;
use crate::sum_lines::line_at;
use it_base::document::read_document;
use serde_json::Value;
use std::alloc::{AllocError, Global};
use std::str;

/// Why bytes are no JSON document, or where to look for that.
#[derive(Clone, Copy, Debug, Drop, PartialEq, Eq)]
pub enum Flaw {
    /// There are none.
    Empty,
    /// They begin with a byte order mark.
    ByteOrderMark,
    /// They begin as UTF-16 does: with its byte order mark, or with a zero byte first or second.
    Utf16,
    /// They are not UTF-8.
    NotUtf8,
    /// Their first line is a document.
    Lines,
    /// This byte is to be looked at.
    Look(Spot),
    /// Their end is to be looked at.
    LookAtEnd,
}

/// A byte of a text, by its place.
#[derive(Clone, Copy, Debug, Drop, PartialEq, Eq)]
pub struct Spot {
    /// The number of its line, from 1.
    pub line: u64,
    /// Its number among the bytes of the line, from 1.
    pub column: usize,
    /// The byte.
    pub byte: u8,
}

/// Why bytes that are no JSON document are none, or where to look for that.
///
/// # Errors
///
/// `AllocError` where memory was refused.
pub(crate) fn flaw_of(alloc: Global, bytes: &[u8]) -> Result<Option<Flaw>, AllocError>
    ensures { IfOk result (λ found. IfSome found (IsFlaw bytes.now)) }
{
    if let Some(flaw) = encoding_flaw(bytes) {
        return Ok(Some(flaw));
    }
    if first_line_reads(alloc, bytes)? {
        return Ok(Some(Flaw::Lines));
    }
    stop_of(alloc, bytes)
}

/// Why bytes are no text of a document.
fn encoding_flaw(bytes: &[u8]) -> Option<Flaw>
    ensures { IfSome result (IsFlaw bytes.now) }
{
    if bytes.is_empty() {
        return Some(Flaw::Empty);
    }
    if bytes.starts_with(b"\xef\xbb\xbf") {
        return Some(Flaw::ByteOrderMark);
    }
    if begins_as_utf16(bytes) {
        return Some(Flaw::Utf16);
    }
    match str::from_utf8(bytes) {
        Ok(_) => None,
        Err(_) => Some(Flaw::NotUtf8),
    }
}

fn begins_as_utf16(bytes: &[u8]) -> bool
    ensures { OnTrue result (BeginsAsUtf16 bytes.now) }
{
    if bytes.starts_with(b"\xff\xfe") {
        return true;
    }
    if bytes.starts_with(b"\xfe\xff") {
        return true;
    }
    if stands(bytes, 0, 0) {
        return true;
    }
    stands(bytes, 1, 0)
}

/// Whether the first line is a document.
fn first_line_reads(alloc: Global, bytes: &[u8]) -> Result<bool, AllocError>
    ensures { IfOk result (λ reads. OnTrue reads (FirstLineReads bytes.now)) }
{
    let Some(line) = line_at(bytes, 1) else {
        return Ok(false);
    };
    match read_document(alloc, line)? {
        Some(_) => Ok(true),
        None => Ok(false),
    }
}

/// Where the reading of bytes as JSON stops.
fn stop_of(alloc: Global, bytes: &[u8]) -> Result<Option<Flaw>, AllocError>
    ensures { IfOk result (λ found. IfSome found (IsFlaw bytes.now)) }
{
    let Err(stop) = Value::from_slice(alloc, bytes) else {
        return Ok(None);
    };
    if stop.is_memory() {
        return Err(AllocError);
    }
    if stop.is_eof() {
        return Ok(Some(Flaw::LookAtEnd));
    }
    match spot_at(bytes, stop.line() as u64, stop.column()) {
        Some(spot) => Ok(Some(Flaw::Look(spot))),
        None => Ok(None),
    }
}

/// The byte at a place.
fn spot_at(bytes: &[u8], line: u64, column: usize) -> Option<Spot>
    ensures { IfSome result (StandsAt bytes.now) }
{
    let text = line_at(bytes, line)?;
    let place = column.checked_sub(1)?;
    let byte = *text.get(place)?;
    Some(Spot { line, column, byte })
}
