//! Why a document was not read.
ghost use Rattle.std.specs.Prelude.{◌≡◌};
ghost use Rattle.it_docs.specs.declared.fault.DocumentFault.TheVariants.{OutOfMemory};

use std::alloc::AllocError;

/// Why no link or Statement was read.
#[derive(Clone, Copy, Debug, PartialEq, Eq)]
pub enum DocumentFault {
    /// The bytes are not such a document.
    BadDocument,
    /// Memory was refused.
    OutOfMemory,
}

impl From<AllocError> for DocumentFault {
    ghost from_gives = { λ _ e. e ≡ OutOfMemory };

    fn from(_e: AllocError) -> DocumentFault {
        DocumentFault::OutOfMemory
    }
}
