//! One line of a digest list.
ghost use Rattle.std.specs.Prelude.{◌≡◌, List, ℕ, IfSome, MatchResult, not};
ghost use Rattle.std.specs.Bool.{OnTrue};
ghost use Rattle.std.specs.Char.{is_ascii_hexdigit};
ghost use Rattle.std.specs.List.{position};
ghost use Rattle.it_base.specs.Finds.{FindsAs};
ghost use Rattle.it_digest.specs.Sums.{algorithm_of, digit_count};
ghost use Rattle.it_part_notes.specs.SumLine.{FollowsDigits, GivesPath, HasDigits};
ghost use Rattle.it_part_notes.specs.SumLine.{IsFault, IsMarked};

use crate::sum_line_note::LineFault;
use it_digest::sums::{ListAlgorithm, split_digest};
use std::str;

/// The path that a line gives, or what is wrong with the line.
pub(crate) fn path_in(algorithm: ListAlgorithm, line: &[u8]) -> Result<&str, LineFault>
    ensures { MatchResult result (λ path. GivesPath (algorithm_of algorithm) line.now path.now)
        (λ fault. (bytes : List ℕ) (number : ℕ)
        → IsFault (algorithm_of algorithm) bytes number line.now fault) }
{
    if let Some(fault) = front_fault(algorithm, line) {
        return Err(fault);
    }
    let Some(text) = after_digits(algorithm, line) else {
        return Err(LineFault::NoDigits);
    };
    let Some(path) = after_mark(text) else {
        return Err(LineFault::NoMark);
    };
    if path.is_empty() {
        return Err(LineFault::NoPath);
    }
    match str::from_utf8(path) {
        Ok(path) => Ok(path),
        Err(_) => Err(LineFault::NotUtf8),
    }
}

/// Whether a line gives this path.
pub(crate) fn gives_path(algorithm: ListAlgorithm, line: &[u8], path: &str) -> bool
    ensures { OnTrue result (GivesPath (algorithm_of algorithm) line.now path.now) }
{
    match path_in(algorithm, line) {
        Ok(found) => found == path,
        Err(_) => false,
    }
}

/// What is wrong with the beginning of a line.
fn front_fault(algorithm: ListAlgorithm, line: &[u8]) -> Option<LineFault>
    ensures { IfSome result (λ fault. (bytes : List ℕ) (number : ℕ)
        → IsFault (algorithm_of algorithm) bytes number line.now fault) }
{
    if line.starts_with(b"\xef\xbb\xbf") {
        return Some(LineFault::ByteOrderMark);
    }
    let many = digits_in(line);
    if many == 0 || many == digits_of(algorithm) {
        return None;
    }
    Some(LineFault::Digits(many as u64))
}

/// How many hexadecimal digits a digest has.
fn digits_of(algorithm: ListAlgorithm) -> usize
    ensures { result ≡ digit_count (algorithm_of algorithm) }
{
    match algorithm {
        ListAlgorithm::Sha256 => 64,
        ListAlgorithm::Sha512 => 128,
    }
}

/// With how many hexadecimal digits a line begins.
fn digits_in(line: &[u8]) -> usize
    ensures { HasDigits line.now result }
{
    match first_other(line) {
        Some(many) => many,
        None => line.len(),
    }
}

/// The place of the first byte that is no hexadecimal digit.
fn first_other(line: &[u8]) -> Option<usize>
    ensures { result ≡ position (λ byte. not (is_ascii_hexdigit byte)) line.now }
{
    line.iter().position(|byte| !byte.is_ascii_hexdigit())
}

/// What follows the digits of a digest with which a line begins.
fn after_digits(algorithm: ListAlgorithm, line: &[u8]) -> Option<&[u8]>
    ensures { FindsAs (λ text. text.now) (FollowsDigits (algorithm_of algorithm) line.now) result }
{
    let (_, text) = split_digest(algorithm, line)?;
    Some(text)
}

/// What follows the two spaces, or the space and the star.
fn after_mark(text: &[u8]) -> Option<&[u8]>
    ensures { FindsAs (λ path. path.now) (IsMarked text.now) result }
{
    match text.strip_prefix(b"  ") {
        Some(path) => Some(path),
        None => text.strip_prefix(b" *"),
    }
}
