//! Why a program that tries tables stops, as its notes say it.
ghost use Rattle.std.specs.Prelude.{◌≡◌};
ghost use Rattle.it_tables.specs.Status.{program_status};

use crate::row_fault::RowFault;
use std::alloc::{AllocError, AllocFailed, Global};
use std::io;
use thiserror::Error;

/// Why a program that tries tables stops.
#[derive(Debug, Drop, Error)]
pub(crate) enum Fault {
    /// The system did not give the words.
    #[error("the words cannot be read")]
    Words,
    /// A file cannot be read.
    #[error("cannot read {path}")]
    Unreadable {
        path: String,
    },
    /// A line of a file is not tried, for this reason. Lines are counted from 1.
    #[error("{path}, line {line}: {reason}")]
    BadRow {
        path: String,
        line: usize,
        reason: RowFault,
    },
    /// The output cannot be written.
    #[error("cannot write the output")]
    Write,
    /// Memory was refused.
    #[error("out of memory")]
    OutOfMemory,
}

impl From<AllocError> for Fault {
    fn from(_error: AllocError) -> Fault {
        Fault::OutOfMemory
    }
}

impl<T: Drop> From<AllocFailed<T>> for Fault {
    fn from(_error: AllocFailed<T>) -> Fault {
        Fault::OutOfMemory
    }
}

impl Fault {
    /// The fault of a file that cannot be read.
    pub(crate) fn of_file(alloc: Global, path: &str, error: &io::Error) -> Fault {
        if error.kind() == io::ErrorKind::OutOfMemory {
            return Fault::OutOfMemory;
        }
        match String::from_str(alloc, path) {
            Ok(path) => Fault::Unreadable { path },
            Err(error) => Fault::from(error),
        }
    }

    /// The fault of a line that is not tried. Lines are counted from 1, `index` from 0.
    pub(crate) fn of_row(alloc: Global, path: &str, index: usize, reason: RowFault) -> Fault {
        if reason == RowFault::OutOfMemory {
            return Fault::OutOfMemory;
        }
        match String::from_str(alloc, path) {
            Ok(path) => Fault::BadRow {
                path,
                line: index.saturating_add(1),
                reason,
            },
            Err(error) => Fault::from(error),
        }
    }

    /// The fault of words that the system did not give, or of an output that was not written:
    /// memory was refused, or `other`.
    pub(crate) fn of_stream(error: &io::Error, other: Fault) -> Fault {
        match error.kind() {
            io::ErrorKind::OutOfMemory => Fault::OutOfMemory,
            _ => other,
        }
    }
}

/// The status that the program ends with: 0 where all rows agree, 1 where one does not, 3 where
/// memory was refused, and 2 for every other fault.
pub(crate) fn exit_status(outcome: &Result<bool, Fault>) -> u8
    ensures { result ≡ program_status outcome.now }
{
    match outcome {
        Ok(true) => 0,
        Ok(false) => 1,
        Err(Fault::OutOfMemory) => 3,
        Err(_) => 2,
    }
}
