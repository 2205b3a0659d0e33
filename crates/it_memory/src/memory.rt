//! Files in memory, found by their paths.
ghost use Rattle.std.specs.Prelude.{◌↔◌, All, IfErr, IfOk, IsTrue, map, string_bytes};
ghost use Rattle.std.specs.List.Sorted.{IsPermutation};
ghost use Rattle.it_disk.specs.Faults.{IsReadFault};
ghost use Rattle.it_memory.specs.Files.{AreApart, AreNames, HasBelow, HasFile, HasKind, files_of};

use crate::file::File;
use crate::names::names_in;
use crate::paths::{front_of, paths_of};
use it_disk::{Fault, Kind};
use it_rules::ranges::front_range;
use it_sorted_paths::place_of;
use std::alloc::{AllocError, Global};
use std::marker::Model;

/// Files in memory, found by their paths. A contract sees each as its path and its bytes.
#[derive(Drop)]
pub struct Memory<'a> {
    alloc: Global,
    /// The files, in the order of their paths' bytes.
    files: Vec<File<'a>>,
    /// The path of each.
    paths: Vec<&'a str>,
}

impl<'a> Model for Memory<'a> {
    ghost use Rattle.std.specs.Prelude.{ℕ, List};
    ghost use Rattle.it_memory.specs.Files.{files_of};
    ghost use Rattle.it_memory.specs.inside.Order.{AreOrdered};

    ghost Value = { List (List ℕ × List ℕ) };

    ghost view = { λ m. files_of m.files.items };

    ghost invariant = { λ m. AreOrdered m.files.items m.paths.items };
}

impl<'a> Memory<'a> {
    /// The files that were handed over, in any order.
    ///
    /// # Errors
    ///
    /// The fault of a path that two files have, that has an empty part, or that is the path of a
    /// file below which another lies.
    pub fn of(alloc: Global, files: Vec<File<'a>>) -> Result<Memory<'a>, Fault>
        ensures same { IfOk result (λ memory. IsPermutation (files_of files.entry.items) memory) }
        ensures apart { IfOk result AreApart }
    {
        let mut files = files;
        files.sort_unstable_by_key(|file| file.path);
        let paths = paths_of(alloc, files.as_slice())?;
        let memory = Memory {
            alloc,
            files,
            paths,
        };
        memory.refuse_below_files()?;
        Ok(memory)
    }

    /// Refuses a file below which another lies.
    fn refuse_below_files(&self) -> Result<(), Fault>
        ensures { IfOk result (λ _. All (λ file. ¬ HasBelow self.now file.0) self.now) }
    {
        let paths = self.paths.as_slice();
        for path in paths {
            if self.has_below(path)? {
                let reason = "it is a file, and another lies below it";
                return Err(Fault::unread(self.alloc, path, reason)?);
            }
        }
        Ok(())
    }

    /// The allocator.
    pub(crate) fn allocator(&self) -> Global {
        self.alloc
    }

    /// The bytes of the file at a path.
    ///
    /// # Errors
    ///
    /// The fault of the path where no file is there.
    pub(crate) fn find(&self, path: &str) -> Result<&'a [u8], Fault>
        ensures ok { IfOk result (λ bytes. HasFile self.now path.now bytes.now) }
        ensures faults { IfErr result (IsReadFault path.now) }
    {
        if let Some(place) = place_of(self.paths.as_slice(), path) {
            return Ok(self.files[place].bytes);
        }
        let reason = if self.has_below(path)? {
            "Is a directory"
        } else {
            NOTHING_THERE
        };
        Err(Fault::unread(self.alloc, path, reason)?)
    }

    /// Whether files lie below a path.
    fn has_below(&self, path: &str) -> Result<bool, AllocError>
        ensures { IfOk result (λ has. IsTrue has ↔ HasBelow self.now path.now) }
    {
        let front = front_of(self.alloc, path)?;
        let (start, end) = front_range(self.paths.as_slice(), front.as_str());
        Ok(start < end)
    }

    /// What is at a path.
    ///
    /// # Errors
    ///
    /// The fault of the path where nothing is there.
    pub(crate) fn kind_at(&self, path: &str) -> Result<Kind, Fault>
        ensures { IfOk result (HasKind self.now path.now) }
    {
        if let Some(_) = place_of(self.paths.as_slice(), path) {
            return Ok(Kind::File);
        }
        if self.has_below(path)? {
            return Ok(Kind::Folder);
        }
        Err(Fault::unread(self.alloc, path, NOTHING_THERE)?)
    }

    /// The names of what lies in a folder, in the order of their bytes.
    ///
    /// # Errors
    ///
    /// The fault of the path where no folder is there.
    pub(crate) fn names_at(&self, folder: &str) -> Result<Vec<String>, Fault>
        ensures { IfOk result
            (λ names. AreNames self.now folder.now (map string_bytes names.items)) }
    {
        if let Kind::File = self.kind_at(folder)? {
            return Err(Fault::unread(self.alloc, folder, "Not a directory")?);
        }
        let front = front_of(self.alloc, folder)?;
        let (start, end) = front_range(self.paths.as_slice(), front.as_str());
        let below = &self.paths[start..end];
        Ok(names_in(self.alloc, below, front.as_str())?)
    }
}

/// Why what is at a path is not read where nothing is there, as the system says it.
const NOTHING_THERE: &str = "No such file or directory";
