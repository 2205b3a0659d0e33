//! The faults of what the system does not give or take.
ghost use Rattle.std.specs.Prelude.{◌≡◌, ◌≢◌, ◌⊎◌, IfOk, codes};
ghost use Rattle.std.specs.IoError.{error_kind};
ghost use Rattle.it_outcome.specs.declared.outcome.RunFault.TheVariants.{OutOfMemory};
ghost use Rattle.it_disk.specs.Faults.{IsReadFault, IsUnreadable, IsUnwritable, SaysOfWords};
ghost use Rattle.it_disk.specs.inside.Listing.{IsBadName};
ghost use Rattle.it_disk.specs.declared.fault.Fault.TheVariants.{Run};

use crate::fault::Fault;
use crate::reason::reason_of;
use crate::shown::Shown;
use std::alloc::{AllocError, Global};
use std::io::{self, ErrorKind};

impl Fault {
    /// The fault of words that the system did not give.
    pub fn of_words(alloc: Global, error: &io::Error) -> Fault
        ensures memory { error_kind error.now ≡ ErrorKind.OutOfMemory → result ≡ Run OutOfMemory }
        ensures other { SaysOfWords (codes "the words cannot be read") result
            ⊎ (result ≡ Run OutOfMemory) }
    {
        if error.kind() == ErrorKind::OutOfMemory {
            return Fault::from(AllocError);
        }
        match String::from_str(alloc, "the words cannot be read") {
            Ok(reason) => Fault::Words(reason),
            Err(error) => Fault::from(error),
        }
    }

    /// The fault of a file that cannot be read.
    pub(crate) fn of_file(alloc: Global, path: &str, error: &io::Error) -> Fault
        ensures memory { error_kind error.now ≡ ErrorKind.OutOfMemory → result ≡ Run OutOfMemory }
        ensures other { IsReadFault path.now result }
    {
        if error.kind() == ErrorKind::OutOfMemory {
            return Fault::from(AllocError);
        }
        match Fault::unreadable(alloc, path, error) {
            Ok(fault) => fault,
            Err(error) => Fault::from(error),
        }
    }

    /// The fault of a folder with an entry that cannot be read.
    pub(crate) fn of_listing(alloc: Global, path: &str, error: &io::Error) -> Fault
        ensures memory { error_kind error.now ≡ ErrorKind.OutOfMemory → result ≡ Run OutOfMemory }
        ensures name { error_kind error.now ≡ ErrorKind.InvalidFilename
            → IsBadName path.now result ⊎ (result ≡ Run OutOfMemory) }
        ensures other { error_kind error.now ≢ ErrorKind.InvalidFilename
            → IsReadFault path.now result }
    {
        if error.kind() != ErrorKind::InvalidFilename {
            return Fault::of_file(alloc, path, error);
        }
        match Shown::of(alloc, path) {
            Ok(path) => Fault::BadName { path },
            Err(error) => Fault::from(error),
        }
    }

    /// The fault of a file that cannot be read, for the system's reason.
    ///
    /// # Errors
    ///
    /// `AllocError` where memory was refused.
    pub fn unreadable(alloc: Global, path: &str, error: &io::Error) -> Result<Fault, AllocError>
        ensures { IfOk result (IsUnreadable path.now) }
    {
        Ok(Fault::Unreadable {
            path: Shown::of(alloc, path)?,
            reason: reason_of(alloc, error)?,
        })
    }

    /// The fault of an output that the system did not take.
    pub fn of_output(alloc: Global, error: &io::Error) -> Fault
        ensures { IsUnwritable result ⊎ (result ≡ Run OutOfMemory) }
    {
        match reason_of(alloc, error) {
            Ok(reason) => Fault::Unwritable { reason },
            Err(error) => Fault::from(error),
        }
    }
}
