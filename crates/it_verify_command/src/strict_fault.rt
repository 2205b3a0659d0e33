//! Why a strict verification stops.
ghost use Rattle.std.specs.Prelude.{◌≡◌};
ghost use Rattle.it_outcome.specs.declared.outcome.RunFault.TheVariants.{OutOfMemory};
ghost use Rattle.it_verify_command.specs.declared.strict_fault.StrictFault.TheVariants.{Run};

use it_outcome::RunFault;
use std::alloc::AllocError;

/// Why a strict verification stopped.
#[derive(Clone, Copy, Debug, PartialEq, Eq)]
pub enum StrictFault {
    /// The verdict accepts, and something is found.
    Findings,
    /// The output could not be written, or memory was refused.
    Run(RunFault),
}

impl From<AllocError> for StrictFault {
    ghost from_gives = { λ _ fault. fault ≡ Run OutOfMemory };

    fn from(_error: AllocError) -> StrictFault {
        StrictFault::Run(RunFault::OutOfMemory)
    }
}

impl From<RunFault> for StrictFault {
    ghost from_gives = { λ reason fault. fault ≡ Run reason };

    fn from(fault: RunFault) -> StrictFault {
        StrictFault::Run(fault)
    }
}
