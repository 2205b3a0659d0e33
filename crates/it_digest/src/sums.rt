//! Digest lists as `sha256sum` and `sha512sum` write them.

ghost use Rattle.std.specs.Prelude.{◌≡◌, ◌==◌, ◌<◌, ◌*◌, ◌∷◌, ℕ, length, IfOk, MatchBool};
ghost use Rattle.std.specs.List.{position};
ghost use Rattle.it_base.specs.Finds.{FindsAs};
ghost use Rattle.it_base.specs.HexadecimalText.{hexadecimal_decoded};
ghost use Rattle.it_digest.specs.Artifacts.{ArtifactMap};
ghost use Rattle.it_digest.specs.DigestSet.{in_sha256};
ghost use Rattle.it_digest.specs.Sums.{IsCut, IsFirstBadLine, IsMarkedPath, IsSum};
ghost use Rattle.it_digest.specs.inside.SumLines.{AddsNothing, AddsSum};
ghost use Rattle.it_digest.specs.Sums.{SumsOf, algorithm_of, lines_of};
ghost use Rattle.it_digest.specs.declared.sums.SumsFault.TheVariants as fault;

use crate::artifacts::Artifacts;
use crate::compare::DigestSet;
use hex::FromHex;
use std::alloc::{AllocError, Global};
use std::marker::Model;
use std::str;

/// The algorithm by which a digest list gives the digests of its files.
#[derive(Clone, Copy, Debug, PartialEq, Eq)]
pub enum ListAlgorithm {
    /// SHA-256 (FIPS 180-4): a list as `sha256sum` writes it, with 64 digits on each line.
    Sha256,
    /// SHA-512 (FIPS 180-4): a list as `sha512sum` writes it, with 128 digits on each line.
    Sha512,
}

/// Why no digest list was read.
#[derive(Clone, Copy, Debug, PartialEq, Eq)]
pub enum SumsFault {
    /// The first bad line, counted from 1.
    BadSums(u64),
    /// Memory was refused.
    OutOfMemory,
}

impl From<AllocError> for SumsFault {
    ghost from_gives = { λ _ e. e ≡ fault.OutOfMemory };

    fn from(_error: AllocError) -> SumsFault {
        SumsFault::OutOfMemory
    }
}

/// What one line says.
#[derive(Clone, Copy)]
struct Sum<'a> {
    path: &'a str,
    digests: DigestSet,
}

/// Reads a digest list as `sha256sum` writes it: [`read_list`] by SHA-256.
///
/// # Errors
///
/// Those of [`read_list`].
pub fn read_sums(alloc: Global, bytes: &[u8]) -> Result<Artifacts, SumsFault>
    ensures ok { IfOk result (SumsOf in_sha256 bytes.now) }
    ensures only { IfOk result
        (λ sums. (other : ArtifactMap) → SumsOf in_sha256 bytes.now other → other ≡ sums) }
    ensures first_bad { (line : ℕ) → result ≡ Err (SumsFault.BadSums line)
        → IsFirstBadLine in_sha256 bytes.now line }
    ensures none { (line : ℕ) → result ≡ Err (SumsFault.BadSums line)
        → (sums : ArtifactMap) → ¬ SumsOf in_sha256 bytes.now sums }
{
    read_list(alloc, ListAlgorithm::Sha256, bytes)
}

/// Reads a digest list by the `algorithm`: a line for each file, with two hexadecimal digits of
/// either case for each byte of its digest, a space, a space or a `*`, the path, and a line feed,
/// which the last line may lack. A path is not empty, is UTF-8, and occurs once; a carriage return
/// at its end is part of it. Empty bytes are the empty list.
///
/// # Errors
///
/// - `BadSums` with the number, from 1, of the first line that is not of this form, or repeats the
///   path of an earlier line.
/// - `OutOfMemory` where memory was refused.
pub fn read_list(
    alloc: Global,
    algorithm: ListAlgorithm,
    bytes: &[u8],
) -> Result<Artifacts, SumsFault>
    ensures ok { IfOk result (SumsOf (algorithm_of algorithm) bytes.now) }
    ensures only { IfOk result (λ sums. (other : ArtifactMap)
        → SumsOf (algorithm_of algorithm) bytes.now other → other ≡ sums) }
    ensures first_bad { (line : ℕ) → result ≡ Err (SumsFault.BadSums line)
        → IsFirstBadLine (algorithm_of algorithm) bytes.now line }
    ensures none { (line : ℕ) → result ≡ Err (SumsFault.BadSums line)
        → (sums : ArtifactMap) → ¬ SumsOf (algorithm_of algorithm) bytes.now sums }
{
    let mut sums = Artifacts::new(alloc);
    let mut rest = bytes;
    let mut number = 0;
    while !rest.is_empty() {
        let (line, after) = split_line(rest);
        number += 1;
        if !add_sum(alloc, algorithm, &mut sums, line)? {
            return Err(SumsFault::BadSums(number));
        }
        rest = after;
    }
    Ok(sums)
}

/// The first line of a non-empty text, without its line feed, and what follows it. Takes no
/// memory.
pub fn split_line(text: &[u8]) -> (&[u8], &[u8])
    requires { 0 < length text.now }
    ensures lines { lines_of text.now ≡ result.0.now ∷ lines_of result.1.now }
    ensures shorter { length result.1.now < length text.now }
{
    match first_line_feed(text) {
        Some(end) => (&text[..end], &text[end + 1..]),
        None => (text, &[]),
    }
}

/// The place of the first line feed.
fn first_line_feed(text: &[u8]) -> Option<usize>
    ensures { result ≡ position (λ byte. byte == 10) text.now }
{
    text.iter().position(|byte| *byte == b'\n')
}

/// Adds what a line says to the map. Returns whether the line is good and its path is new.
fn add_sum(
    alloc: Global,
    algorithm: ListAlgorithm,
    sums: &mut Artifacts,
    line: &[u8],
) -> Result<bool, AllocError>
    ensures { IfOk result (λ added. MatchBool added
        (AddsSum (algorithm_of algorithm) line.now sums.old sums.new)
        (AddsNothing (algorithm_of algorithm) line.now sums.old)) }
{
    match read_sum(algorithm, line) {
        None => Ok(false),
        Some(sum) => {
            let path = String::from_str(alloc, sum.path)?;
            let before = sums.insert(path, sum.digests)?;
            Ok(before.is_none())
        }
    }
}

/// What a line, without its line feed, says.
fn read_sum(algorithm: ListAlgorithm, line: &[u8]) -> Option<Sum<'_>>
    ensures { FindsAs (λ sum. (sum.path.now, sum.digests))
        (IsSum (algorithm_of algorithm) line.now) result }
{
    let (digests, text) = split_digest(algorithm, line)?;
    let path = marked_path(text)?;
    Some(Sum { path, digests })
}

/// The digest with whose digits a line begins, and what follows them: `None` where the line does
/// not begin with as many hexadecimal digits as the algorithm's digests have. Takes no memory.
pub fn split_digest(algorithm: ListAlgorithm, line: &[u8]) -> Option<(DigestSet, &[u8])>
    ensures { FindsAs (λ cut. (cut.0, cut.1.now))
        (IsCut (algorithm_of algorithm) line.now) result }
{
    match algorithm {
        ListAlgorithm::Sha256 => {
            let (digits, text) = line.split_first_chunk::<64>()?;
            let digest = read_digits(digits.as_slice())?;
            Some((DigestSet::of_sha256(digest), text))
        }
        ListAlgorithm::Sha512 => {
            let (digits, text) = line.split_first_chunk::<128>()?;
            let digest = read_digits(digits.as_slice())?;
            Some((DigestSet::of_sha512(digest), text))
        }
    }
}

/// The bytes that twice as many hexadecimal digits encode.
fn read_digits<const N: usize>(digits: &[u8]) -> Option<[u8; N]>
    requires { length digits.now ≡ 2 * N }
    ensures { result ≡ hexadecimal_decoded digits.now }
{
    <[u8; N] as FromHex>::from_hex(digits).ok()
}

/// The path that follows the digits of a line.
fn marked_path(text: &[u8]) -> Option<&str>
    ensures { FindsAs (λ path. path.now) (IsMarkedPath text.now) result }
{
    let path = match text.strip_prefix(b"  ") {
        Some(path) => path,
        None => text.strip_prefix(b" *")?,
    };
    if path.is_empty() {
        return None;
    }
    str::from_utf8(path).ok()
}
