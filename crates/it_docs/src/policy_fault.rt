//! Why a policy was not read.
ghost use Rattle.std.specs.Prelude.{◌≡◌};
ghost use Rattle.it_docs.specs.declared.policy_fault.PolicyFault.TheVariants.{OutOfMemory};

use std::alloc::AllocError;

/// A part of a policy that can fail, in the order in which parts are checked.
#[derive(Clone, Copy, Debug, PartialEq, Eq)]
pub enum PolicyPart {
    /// The document is not a JSON object.
    Json,
    /// `owners` is not an object from id to key object, or has no members.
    Owners,
    /// `deliver` is not a list of rules.
    Deliver,
    /// `expectations` is not a list.
    Expectations,
    /// The expectation at this index, from 0, is not an expectation.
    Expectation(usize),
}

/// Why no policy was read.
#[derive(Clone, Copy, Debug, PartialEq, Eq)]
pub enum PolicyFault {
    /// This part is the first that fails.
    BadPolicy(PolicyPart),
    /// Memory was refused.
    OutOfMemory,
}

impl From<AllocError> for PolicyFault {
    ghost from_gives = { λ _ e. e ≡ OutOfMemory };

    fn from(_e: AllocError) -> PolicyFault {
        PolicyFault::OutOfMemory
    }
}
