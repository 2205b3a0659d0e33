//! Why a layout does not hold for its links, as a refusal of the delivery.
ghost use Rattle.std.specs.Prelude.{◌≡◌};
ghost use Rattle.it_verify.specs.Refusals.{fault_of, refusal_of};
ghost use Rattle.it_verify.specs.inside.Failures.{failure_of};

use crate::failure::Failure;
use it_chain::refusal::{ChainError, ChainFault, ChainRefusal};
use it_report::refusal::{Fault, Refusal};

/// The fault of a layout, as a fault of the delivery.
fn fault_of(inner: ChainFault) -> Fault
    ensures { result ≡ fault_of inner }
{
    match inner {
        ChainFault::Expired => Fault::Expired,
        ChainFault::TwoPayloads { step, id } => Fault::TwoPayloads { step, id },
        ChainFault::TooDeep => Fault::TooDeep,
        ChainFault::Threshold {
            step,
            found,
            needed,
        } => Fault::Threshold {
            step,
            found,
            needed,
        },
        ChainFault::Disagree { step, id } => Fault::Disagree { step, id },
        ChainFault::InspectionInSublayout => Fault::InspectionInSublayout,
        ChainFault::RuleFailed {
            item,
            side,
            index,
            path,
        } => Fault::RuleFailed {
            item,
            side,
            index,
            path,
        },
    }
}

/// The refusal of a layout, as a refusal of the delivery.
fn refusal_of(inner: ChainRefusal) -> Refusal
    ensures { result ≡ refusal_of inner }
{
    let ChainRefusal { at, fault } = inner;
    Refusal {
        at,
        fault: fault_of(fault),
    }
}

impl From<ChainError> for Failure {
    ghost from_gives = { λ error failure. failure ≡ failure_of error };

    fn from(error: ChainError) -> Failure {
        match error {
            ChainError::Refused(inner) => Failure::Refused(refusal_of(inner)),
            ChainError::OutOfMemory => Failure::OutOfMemory,
        }
    }
}
