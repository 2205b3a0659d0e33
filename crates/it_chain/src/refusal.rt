//! Why a layout does not hold for a bundle.
use it_base::sequence::Sequence;
use it_base::text::Text;
use it_docs::rule::Side;
use std::alloc::{AllocError, AllocFailed};

/// Whose artifact rules were applied.
#[derive(Drop)]
pub enum RuleItem {
    /// A step, by its name.
    Step(Text),
    /// An inspection, by its name.
    Inspection(Text),
    /// The delivered files.
    Deliver,
}

/// What is wrong with a layout over a bundle.
#[derive(Drop)]
pub enum ChainFault {
    /// The layout's `expires` is before the moment.
    Expired,
    /// Two different bodies count for one key id.
    TwoPayloads {
        /// The name of the step.
        step: Text,
        /// The key id.
        id: Text,
    },
    /// A sublayout is nested deeper than the given depth.
    TooDeep,
    /// Fewer different keys than the step's threshold signed a body that counts.
    Threshold {
        /// The name of the step.
        step: Text,
        /// How many different keys signed.
        found: u64,
        /// The step's threshold.
        needed: u64,
    },
    /// Two records of one step differ.
    Disagree {
        /// The name of the step.
        step: Text,
        /// The least key id whose record differs from that of the least id that counts.
        id: Text,
    },
    /// A sublayout asks for inspections.
    InspectionInSublayout,
    /// An artifact rule fails.
    RuleFailed {
        /// Whose rule it is.
        item: RuleItem,
        /// The side that the rule judges.
        side: Side,
        /// The rule's place in the list of that side, from 0.
        index: usize,
        /// The least path that a `DISALLOW` forbids, or the text of a `REQUIRE`.
        path: Text,
    },
}

/// Why a layout does not hold for a bundle, and where.
#[derive(Drop)]
pub struct ChainRefusal {
    /// The sublayouts down to the layout that the fault is about, the outermost first: each by
    /// the name of its step and the key id that signed it. Empty for the outermost layout.
    pub at: Sequence<(Text, Text)>,
    /// What is wrong with that layout.
    pub fault: ChainFault,
}

/// Why there is no chain.
#[derive(Drop)]
pub enum ChainError {
    /// The layout does not hold for the bundle.
    Refused(ChainRefusal),
    /// Memory was refused.
    OutOfMemory,
}

impl From<AllocError> for ChainError {
    ghost use Rattle.std.specs.Prelude.{◌≡◌};
    ghost use Rattle.it_chain.specs.declared.refusal.ChainError.TheVariants.{OutOfMemory};

    ghost from_gives = { λ _ e. e ≡ OutOfMemory };

    fn from(_e: AllocError) -> ChainError {
        ChainError::OutOfMemory
    }
}

impl<T: Drop> From<AllocFailed<T>> for ChainError {
    ghost use Rattle.std.specs.Prelude.{◌≡◌};
    ghost use Rattle.it_chain.specs.declared.refusal.ChainError.TheVariants.{OutOfMemory};

    ghost from_gives = { λ _ e. e ≡ OutOfMemory };

    fn from(_e: AllocFailed<T>) -> ChainError {
        ChainError::OutOfMemory
    }
}
