//! How much of a folder of links was read so far.
ghost use Rattle.std.specs.Prelude.{◌≡◌, ◌+◌, IfErr, IfOk, length};
ghost use Rattle.it_disk.specs.inside.SoFar.{IsOver, IsOverNames, IsWithin};

use crate::fault::Fault;
use crate::shown::Shown;
use std::alloc::Global;

/// How many bytes the files of links may have in all.
const MOST_BYTES: u64 = 2_147_483_648;

/// How many files and folders of links may be read in all.
const MOST_ENTRIES: u64 = 100_000;

/// How many names the folders of links may have in all.
const MOST_NAMES: u64 = 1_000_000;

/// How much of a folder of links was read so far.
#[derive(Clone, Copy)]
pub(crate) struct SoFar {
    /// The bytes of the files.
    pub(crate) bytes: u64,
    /// The files and folders.
    pub(crate) entries: u64,
    /// The names in the folders, also of what is skipped.
    pub(crate) names: u64,
}

impl SoFar {
    /// The same with what is at a path: a file of these bytes, or a folder, which has none.
    ///
    /// # Errors
    ///
    /// `TooManyInAll` where it is one file or folder too many, and otherwise `TooMuch` where there
    /// are too many bytes.
    pub(crate) fn with(self, alloc: Global, path: &str, bytes: &[u8]) -> Result<SoFar, Fault>
        ensures bytes { IfOk result (λ read. read.bytes ≡ self.bytes + length bytes.now) }
        ensures entries { IfOk result (λ read. read.entries ≡ self.entries + 1) }
        ensures names { IfOk result (λ read. read.names ≡ self.names) }
        ensures within { IfOk result (λ read. IsWithin self → IsWithin read) }
        ensures over { IfErr result (IsOver self path.now (length bytes.now)) }
    {
        if self.entries >= MOST_ENTRIES {
            return Err(Fault::TooManyInAll {
                path: Shown::of(alloc, path)?,
                limit: MOST_ENTRIES,
            });
        }
        let read = self.bytes.saturating_add(bytes.len() as u64);
        if read > MOST_BYTES {
            return Err(Fault::TooMuch {
                path: Shown::of(alloc, path)?,
                limit: MOST_BYTES,
            });
        }
        Ok(SoFar {
            bytes: read,
            entries: self.entries + 1,
            ..self
        })
    }

    /// The same with as many names of the folder at a path, which costs their listing whether what
    /// has them is read or skipped.
    ///
    /// # Errors
    ///
    /// `Unreadable` where these are too many names.
    pub(crate) fn with_names(self, alloc: Global, path: &str, count: usize) -> Result<SoFar, Fault>
        ensures bytes { IfOk result (λ read. read.bytes ≡ self.bytes) }
        ensures entries { IfOk result (λ read. read.entries ≡ self.entries) }
        ensures names { IfOk result (λ read. read.names ≡ self.names + count) }
        ensures within { IfOk result (λ read. IsWithin self → IsWithin read) }
        ensures over { IfErr result (IsOverNames self path.now count) }
    {
        let names = self.names.saturating_add(count as u64);
        if names > MOST_NAMES {
            let reason = "with it the folders of links have more than 1000000 names in all";
            return Err(Fault::unread(alloc, path, reason)?);
        }
        Ok(SoFar { names, ..self })
    }
}
