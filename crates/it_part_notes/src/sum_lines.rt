//! The lines of a digest list by their numbers.
ghost use Rattle.std.specs.Prelude.{◌<◌, IfSome};
ghost use Rattle.std.specs.Bool.{OnTrue};
ghost use Rattle.it_digest.specs.Sums.{algorithm_of};
ghost use Rattle.it_part_notes.specs.SumLine.{FirstLineReturns, IsLine, LineGives};

use crate::sum_line::gives_path;
use it_digest::sums::{ListAlgorithm, split_line};

/// The line of this number, from 1.
pub(crate) fn line_at(bytes: &[u8], number: u64) -> Option<&[u8]>
    ensures { IfSome result (λ line. IsLine bytes.now number line.now) }
{
    let mut rest = bytes;
    let mut next = 1;
    while !rest.is_empty() {
        let (line, after) = split_line(rest);
        if next == number {
            return Some(line);
        }
        next += 1;
        rest = after;
    }
    None
}

/// Whether the first line ends with a carriage return, as every line of a file from DOS or Windows
/// does. Takes no memory.
pub fn first_line_returns(bytes: &[u8]) -> bool
    ensures { OnTrue result (FirstLineReturns bytes.now) }
{
    match line_at(bytes, 1) {
        Some(line) => line.ends_with(b"\r"),
        None => false,
    }
}

/// The number of the first line that gives a path, if it comes before the line with this number.
pub(crate) fn earlier_line(
    algorithm: ListAlgorithm,
    bytes: &[u8],
    number: u64,
    path: &str,
) -> Option<u64>
    ensures { IfSome result (λ earlier. (earlier < number)
        × LineGives (algorithm_of algorithm) bytes.now earlier path.now) }
{
    let mut rest = bytes;
    for earlier in 1..number {
        if rest.is_empty() {
            return None;
        }
        let (line, after) = split_line(rest);
        if gives_path(algorithm, line, path) {
            return Some(earlier);
        }
        rest = after;
    }
    None
}
