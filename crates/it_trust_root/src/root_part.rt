//! Why no trusted root was read.
ghost use Rattle.std.specs.Prelude.{◌≡◌};
ghost use Rattle.it_trust_root.specs.declared.root_part.RootFault.TheVariants.{OutOfMemory};

use std::alloc::AllocError;

/// A list of a trusted root.
#[derive(Clone, Copy, Debug, PartialEq, Eq)]
pub enum RootList {
    /// `tlogs`, the logs of entries.
    Logs,
    /// `certificateAuthorities`.
    Authorities,
    /// `ctlogs`, the logs of certificates.
    CertificateLogs,
}

/// A part of such a list that can fail, in the order in which parts are checked.
#[derive(Clone, Copy, Debug, PartialEq, Eq)]
pub enum ListPart {
    /// It is not a list.
    Whole,
    /// The element at this index, from 0, is not of its form.
    Element(usize),
    /// It has more than 64 elements.
    Count,
}

/// A part of a trusted root that can fail, in the order in which parts are checked.
#[derive(Clone, Copy, Debug, PartialEq, Eq)]
pub enum RootPart {
    /// The bytes are not a JSON object.
    Json,
    /// `mediaType` is not that of a trusted root.
    MediaType,
    /// A part of a list; the lists are in their own order.
    In(RootList, ListPart),
}

/// Why no trusted root was read.
#[derive(Clone, Copy, Debug, PartialEq, Eq)]
pub enum RootFault {
    /// This part is the first that fails.
    BadRoot(RootPart),
    /// Memory was refused.
    OutOfMemory,
}

impl From<AllocError> for RootFault {
    ghost from_gives = { λ _ e. e ≡ OutOfMemory };

    fn from(_e: AllocError) -> RootFault {
        RootFault::OutOfMemory
    }
}
