//! Why a verification stops before it accepts.
ghost use Rattle.std.specs.Prelude.{◌≡◌};
ghost use Rattle.it_verify.specs.Refusals.{whole};
ghost use Rattle.it_verify.specs.declared.failure.Failure.TheVariants.{OutOfMemory, Refused};

use it_base::sequence::Sequence;
use it_chain::refusal::RuleItem;
use it_docs::rule::Side;
use it_report::refusal::{Fault, Refusal};
use it_rules::rules::RuleFault;
use std::alloc::{AllocError, AllocFailed, Global};

/// Why a verification stops before it accepts.
#[derive(Drop)]
pub(crate) enum Failure {
    /// The delivery is refused.
    Refused(Refusal),
    /// Memory was refused.
    OutOfMemory,
}

impl From<AllocError> for Failure {
    ghost from_gives = { λ _ e. e ≡ OutOfMemory };

    fn from(_e: AllocError) -> Failure {
        Failure::OutOfMemory
    }
}

impl<T: Drop> From<AllocFailed<T>> for Failure {
    ghost from_gives = { λ _ e. e ≡ OutOfMemory };

    fn from(_e: AllocFailed<T>) -> Failure {
        Failure::OutOfMemory
    }
}

/// The failure for a fault that concerns no sublayout.
pub(crate) fn refused(alloc: Global, fault: Fault) -> Failure
    ensures { result ≡ Refused (whole fault) }
{
    Failure::Refused(Refusal {
        at: Sequence::from(Vec::new(alloc)),
        fault,
    })
}

/// The failure for a rule that fails on a side of an item.
pub(crate) fn rule_failed(alloc: Global, whose: RuleItem, side: Side, fault: RuleFault) -> Failure
    ensures { result ≡ Refused (whole (Fault.RuleFailed whose side fault.index fault.path)) }
{
    refused(
        alloc,
        Fault::RuleFailed {
            item: whose,
            side,
            index: fault.index,
            path: fault.path,
        },
    )
}
