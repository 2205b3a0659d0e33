//! Files and folders one at a time, as walks through folders ask for them.
ghost use Rattle.std.specs.Prelude.{◌≤◌, length, IfErr, IfOk, map, string_bytes};
ghost use Rattle.it_disk.specs.Faults.{IsFileFault, IsReadFault};
ghost use Rattle.it_disk.specs.Walks.{Seen, unseen};

use crate::fault::Fault;
use crate::files::read_file;
use crate::folders::Kind;
use std::alloc::AllocError;
use std::rt::Files;
use std::{fs, io};

/// Files and folders, of which a walk reads one at a time. What it reads of a folder, in which
/// order and up to which limits, is then the same wherever they are.
///
/// Every type that gives files and memory is one. Of the system's files no contract can say what is
/// at a path.
pub trait Tree {
    // what is at each path here
    ghost seen: { Self → Seen };

    /// The bytes of a file, 8,388,608 at most.
    fn read_whole(&self, path: &str) -> Result<Vec<u8>, Fault>
        ensures holds { IfOk result (λ bytes. (seen self.now).file path.now bytes.items) }
        ensures within { IfOk result (λ bytes. length bytes.items ≤ 8388608) }
        ensures faults { IfErr result (IsFileFault path.now) };

    /// The names in a folder, in the order of their bytes.
    ///
    /// # Errors
    ///
    /// Where the folder cannot be read, or a name in it is not UTF-8.
    fn names(&self, folder: &str) -> Result<Vec<String>, Fault>
        ensures { IfOk result
            (λ names. (seen self.now).names folder.now (map string_bytes names.items)) };

    /// What is at a path, or `None` where it is neither a file nor a folder. A symbolic link counts
    /// as what it leads to.
    ///
    /// # Errors
    ///
    /// Where nothing is there.
    fn look(&self, path: &str) -> Result<Option<Kind>, Fault>
        ensures { IfOk result (λ found. (seen self.now).kind path.now found) };

    /// Whether a symbolic link is at a path.
    fn is_link(&self, path: &str) -> Result<bool, Fault>;
}

impl<R: Files + AllocGlobal> Tree for R {
    ghost seen = { λ _. unseen };

    fn read_whole(&self, path: &str) -> Result<Vec<u8>, Fault> {
        read_file(self, path)
    }

    fn names(&self, folder: &str) -> Result<Vec<String>, Fault> {
        names_in(self, folder)
    }

    fn look(&self, path: &str) -> Result<Option<Kind>, Fault> {
        match fs::metadata(self, path) {
            Ok(found) if found.is_file() => Ok(Some(Kind::File)),
            Ok(found) if found.is_dir() => Ok(Some(Kind::Folder)),
            Ok(_) => Ok(None),
            Err(error) => Err(untold(self, path, &error)?),
        }
    }

    fn is_link(&self, path: &str) -> Result<bool, Fault> {
        match fs::symlink_metadata(self, path) {
            Ok(found) => Ok(found.is_symlink()),
            Err(error) => Err(Fault::of_file(self.alloc(), path, &error)),
        }
    }
}

/// The names in a folder, in the order of their bytes.
///
/// # Errors
///
/// Where the folder cannot be read, or a name in it is not UTF-8.
fn names_in<R: Files + AllocGlobal>(rt: &R, folder: &str) -> Result<Vec<String>, Fault> {
    let alloc = rt.alloc();
    let listing = match fs::read_dir(&rt, folder) {
        Ok(listing) => listing,
        Err(error) => return Err(Fault::of_file(alloc, folder, &error)),
    };
    let mut names = Vec::new(alloc);
    for entry in listing {
        let entry = match entry {
            Ok(entry) => entry,
            Err(error) => return Err(Fault::of_listing(alloc, folder, &error)),
        };
        names.push(String::from_str(alloc, entry.file_name())?)?;
    }
    names.sort_unstable();
    Ok(names)
}

/// The fault of a path where the system does not say what is there.
fn untold<R: Files + AllocGlobal>(
    rt: &R,
    path: &str,
    error: &io::Error,
) -> Result<Fault, AllocError>
    ensures { IfOk result (IsReadFault path.now) }
{
    if error.kind() != io::ErrorKind::NotFound {
        return Ok(Fault::of_file(rt.alloc(), path, error));
    }
    match fs::symlink_metadata(rt, path) {
        Ok(found) if found.is_symlink() => {
            Fault::unread(rt.alloc(), path, "it is a symbolic link that leads nowhere")
        }
        _ => Ok(Fault::of_file(rt.alloc(), path, error)),
    }
}
