//! What is wrong with a line of a digest list.
ghost use Rattle.std.specs.Prelude.{◌≡◌, List, ℕ, IfOk, IfSome};
ghost use Rattle.it_digest.specs.Sums.{algorithm_of};
ghost use Rattle.it_part_notes.specs.SumLine.{GivesPath, IsFault, TellsSumLine};

use crate::sum_line::path_in;
use crate::sum_lines::{earlier_line, line_at};
use it_base::text::Text;
use it_digest::sums::ListAlgorithm;
use std::alloc::{AllocError, Global};

/// A bad line of a digest list.
#[derive(Drop)]
pub struct SumLineNote {
    /// The algorithm of the list.
    pub algorithm: ListAlgorithm,
    /// The number of the line, from 1.
    pub number: u64,
    /// What is wrong with it.
    pub fault: LineFault,
}

/// What is wrong with a line of a digest list.
#[derive(Drop)]
pub enum LineFault {
    /// It begins with a byte order mark.
    ByteOrderMark,
    /// It begins with this many hexadecimal digits, and not with as many as a digest has.
    Digits(u64),
    /// It does not begin with as many hexadecimal digits as a digest has.
    NoDigits,
    /// Neither two spaces nor a space and a star follow the digits.
    NoMark,
    /// Nothing is where the path should be.
    NoPath,
    /// What is where the path should be is not UTF-8.
    NotUtf8,
    /// It gives a path that an earlier line gives.
    Repeated {
        /// The path.
        path: Text,
        /// The number of the first line that gives the path, from 1.
        earlier: u64,
    },
}

/// Says what is wrong with a line of a digest list in the form of `sha256sum` or `sha512sum`.
///
/// `bytes` are the digest list by the `algorithm`, and `number` is that of the line, from 1. The
/// answer is `None` where there is no such line, or nothing is wrong with it.
///
/// # Errors
///
/// `AllocError` where memory was refused.
pub fn sum_line_note(
    alloc: Global,
    algorithm: ListAlgorithm,
    bytes: &[u8],
    number: u64,
) -> Result<Option<SumLineNote>, AllocError>
    ensures { IfOk result (λ found. IfSome found (λ note. (note.algorithm ≡ algorithm)
        × (note.number ≡ number) × TellsSumLine bytes.now note)) }
{
    let Some(line) = line_at(bytes, number) else {
        return Ok(None);
    };
    let Some(fault) = fault_of(alloc, algorithm, bytes, number, line)? else {
        return Ok(None);
    };
    Ok(Some(SumLineNote {
        algorithm,
        number,
        fault,
    }))
}

/// What is wrong with the line with this number.
fn fault_of(
    alloc: Global,
    algorithm: ListAlgorithm,
    bytes: &[u8],
    number: u64,
    line: &[u8],
) -> Result<Option<LineFault>, AllocError>
    ensures { IfOk result (λ found. IfSome found
        (IsFault (algorithm_of algorithm) bytes.now number line.now)) }
{
    match path_in(algorithm, line) {
        Ok(path) => repeated(alloc, algorithm, bytes, number, path),
        Err(fault) => Ok(Some(fault)),
    }
}

/// What is wrong with the line with this number, which gives a path, if an earlier line gives it
/// too.
fn repeated(
    alloc: Global,
    algorithm: ListAlgorithm,
    bytes: &[u8],
    number: u64,
    path: &str,
) -> Result<Option<LineFault>, AllocError>
    ensures { (line : List ℕ) → GivesPath (algorithm_of algorithm) line path.now → IfOk result
        (λ found. IfSome found (IsFault (algorithm_of algorithm) bytes.now number line)) }
{
    let Some(earlier) = earlier_line(algorithm, bytes, number, path) else {
        return Ok(None);
    };
    let path = Text::copy(alloc, path)?;
    Ok(Some(LineFault::Repeated { path, earlier }))
}
