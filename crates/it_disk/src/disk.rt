//! Files and folders, as the commands read them by their paths.
ghost use Rattle.std.specs.Prelude.{◌≤◌, length, IfErr, IfOk};
ghost use Rattle.it_disk.specs.Faults.{IsFileFault};
ghost use Rattle.it_disk.specs.Reading.{AreLimited, Holdings, anything};

use crate::fault::Fault;
use crate::files::read_file;
use crate::folders::{Kind, Links, read_links};
use crate::listing::{Listed, kind_at, list};
use crate::records::read_records;
use it_base::sequence::Sequence;
use it_base::text::Text;
use std::fs;
use std::io::Read;
use std::rt::Files;

/// What commands read, by path. A command is proved for any relation between paths and what is read
/// there: what it takes from one path it cannot have taken from another. Of the system's files that
/// relation holds of anything, since no contract can say what is at a path.
///
/// Every type that gives files and memory is one. Each method returns a fault that names the path
/// where the system does not give what is there, or it exceeds a limit of a file or a folder.
pub trait Disk {
    // what each path holds here
    ghost holdings: { Self → Holdings };

    /// A file that is read as it comes.
    type File: Read + Drop;

    /// Opens a file.
    fn open(&self, path: &str) -> Result<Self::File, Fault>
        ensures { IfOk result
            (λ file. (holdings self.now).left path.now (Self.File.remaining file)) };

    /// The bytes of a file, 8,388,608 at most.
    fn file(&self, path: &str) -> Result<Vec<u8>, Fault>
        ensures holds { IfOk result (λ bytes. (holdings self.now).file path.now bytes.items) }
        ensures within { IfOk result (λ bytes. length bytes.items ≤ 8388608) }
        ensures faults { IfErr result (IsFileFault path.now) };

    /// The links of a folder, down to `depth` levels below it. Where signatures are `limited`,
    /// files whose envelopes have too many are left out.
    fn links(&self, folder: &str, depth: u8, limited: bool) -> Result<Links, Fault>
        ensures holds { IfOk result
            (λ links. (holdings self.now).links folder.now depth limited links.bundle) }
        ensures within { IfOk result (λ links. AreLimited limited links.bundle) };

    /// The records of inspections in a folder, each under the name of its inspection.
    fn records(&self, folder: &str) -> Result<Sequence<(Text, Sequence<u8>)>, Fault>
        ensures { IfOk result (λ records. (holdings self.now).records folder.now records) };

    /// Whether what is at a path is a file or a folder. A symbolic link counts as what it leads to.
    fn kind(&self, path: &str) -> Result<Kind, Fault>
        ensures { IfOk result (λ kind. (holdings self.now).kind path.now kind) };

    /// All entries of a folder, where these are files, folders and symbolic links to files.
    fn entries(&self, folder: &str) -> Result<Sequence<Listed>, Fault>
        ensures { IfOk result (λ entries. (holdings self.now).entries folder.now entries) };
}

impl<R: Files + AllocGlobal> Disk for R {
    ghost holdings = { λ _. anything };

    type File = R::File;

    fn open(&self, path: &str) -> Result<R::File, Fault> {
        match fs::open(self, path) {
            Ok(file) => Ok(file),
            Err(error) => Err(Fault::of_file(self.alloc(), path, &error)),
        }
    }

    fn file(&self, path: &str) -> Result<Vec<u8>, Fault> {
        read_file(self, path)
    }

    fn links(&self, folder: &str, depth: u8, limited: bool) -> Result<Links, Fault> {
        read_links(self, folder, depth, limited)
    }

    fn records(&self, folder: &str) -> Result<Sequence<(Text, Sequence<u8>)>, Fault> {
        Ok(Sequence::from(read_records(self, folder)?))
    }

    fn kind(&self, path: &str) -> Result<Kind, Fault> {
        kind_at(self, path)
    }

    fn entries(&self, folder: &str) -> Result<Sequence<Listed>, Fault> {
        Ok(Sequence::from(list(self, folder)?))
    }
}
