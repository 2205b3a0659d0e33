//! The files that two digest lists describe together.

ghost use Rattle.std.specs.Prelude.{◌≡◌, ℕ, MatchResult};
ghost use Rattle.it_digest.specs.DigestSet.{in_sha256, in_sha512};
ghost use Rattle.it_digest.specs.Listed.{AreListed, IsFirstBadIn, NamesLine};
ghost use Rattle.it_digest.specs.Sums.{IsFirstBadLine, SumsOf};
ghost use Rattle.it_digest.specs.declared.listed.ListsFault.TheVariants as fault;

use crate::artifacts::Artifacts;
use crate::sums::{ListAlgorithm, SumsFault, read_list};
use std::alloc::{AllocError, Global};
use std::marker::Model;

/// The first bad line of two digest lists, counted from 1 in its list.
#[derive(Clone, Copy, Debug, PartialEq, Eq)]
pub enum BadLine {
    /// It is in the list by SHA-256.
    InSha256(u64),
    /// It is in the list by SHA-512, and the list by SHA-256 has none.
    InSha512(u64),
}

/// Why two digest lists were not read.
#[derive(Clone, Copy, Debug, PartialEq, Eq)]
pub enum ListsFault {
    /// One of them has a bad line.
    Bad(BadLine),
    /// Memory was refused.
    OutOfMemory,
}

impl From<AllocError> for ListsFault {
    ghost from_gives = { λ _ e. e ≡ fault.OutOfMemory };

    fn from(_error: AllocError) -> ListsFault {
        ListsFault::OutOfMemory
    }
}

/// Reads two digest lists, `sums` by SHA-256 and `sums512` by SHA-512, and returns the files of
/// both: a path in both has both digests. Empty bytes are the empty list. Whether the lists were
/// made from the same files cannot be seen.
///
/// # Errors
///
/// - `Bad` with the first bad line of `sums`, or, where it has none, of `sums512`: see
///   [`read_list`].
/// - `OutOfMemory` where memory was refused.
pub fn read_lists(alloc: Global, sums: &[u8], sums512: &[u8]) -> Result<Artifacts, ListsFault>
    ensures { MatchResult result (AreListed sums.now sums512.now)
        (NamesLine (IsFirstBadIn sums.now sums512.now)) }
{
    let by_sha256 = read_sha256_list(alloc, sums)?;
    let by_sha512 = read_sha512_list(alloc, sums512)?;
    Ok(by_sha256.together(alloc, &by_sha512)?)
}

fn read_sha256_list(alloc: Global, bytes: &[u8]) -> Result<Artifacts, ListsFault>
    ensures { MatchResult result (SumsOf in_sha256 bytes.now) (NamesLine (λ bad. (line : ℕ)
        × IsFirstBadLine in_sha256 bytes.now line × (bad ≡ BadLine.InSha256 line))) }
{
    match read_list(alloc, ListAlgorithm::Sha256, bytes) {
        Ok(files) => Ok(files),
        Err(SumsFault::BadSums(line)) => Err(ListsFault::Bad(BadLine::InSha256(line))),
        Err(SumsFault::OutOfMemory) => Err(ListsFault::OutOfMemory),
    }
}

fn read_sha512_list(alloc: Global, bytes: &[u8]) -> Result<Artifacts, ListsFault>
    ensures { MatchResult result (SumsOf in_sha512 bytes.now) (NamesLine (λ bad. (line : ℕ)
        × IsFirstBadLine in_sha512 bytes.now line × (bad ≡ BadLine.InSha512 line))) }
{
    match read_list(alloc, ListAlgorithm::Sha512, bytes) {
        Ok(files) => Ok(files),
        Err(SumsFault::BadSums(line)) => Err(ListsFault::Bad(BadLine::InSha512(line))),
        Err(SumsFault::OutOfMemory) => Err(ListsFault::OutOfMemory),
    }
}
