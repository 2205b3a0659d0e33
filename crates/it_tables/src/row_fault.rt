//! Why a row is not tried.
use std::alloc::{AllocError, AllocFailed};
use thiserror::Error;

/// Why a row is not tried.
#[derive(Clone, Copy, Debug, PartialEq, Error)]
pub enum RowFault {
    /// The line is no JSON document.
    #[error("it is no JSON document")]
    NoDocument,
    /// The document is not one of this name.
    #[error("it is no {0}")]
    Malformed(&'static str),
    /// The member of this name is missing, or is not what the call takes.
    #[error("its member {0} is missing or unfit")]
    BadMember(&'static str),
    /// The program does not know the call.
    #[error("its call is not known")]
    UnknownCall,
    /// Memory was refused.
    #[error("out of memory")]
    OutOfMemory,
}

impl From<AllocError> for RowFault {
    fn from(_error: AllocError) -> RowFault {
        RowFault::OutOfMemory
    }
}

impl<T: Drop> From<AllocFailed<T>> for RowFault {
    fn from(_error: AllocFailed<T>) -> RowFault {
        RowFault::OutOfMemory
    }
}
