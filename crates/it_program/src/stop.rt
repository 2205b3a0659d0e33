//! Why the program stops.
ghost use Rattle.std.specs.Prelude.{◌≡◌};
ghost use Rattle.it_disk.specs.Faults.{fault_of_words};
ghost use Rattle.it_disk.specs.declared.fault.Fault.TheVariants.{Run};
ghost use Rattle.it_program.specs.Stopped.{stop_of};
ghost use Rattle.it_program.specs.declared.stop.Stop.TheVariants.{OfFault};

use crate::spent::Spent;
use it_disk::Fault;
use it_outcome::RunFault;
use it_verify_command::strict_fault::StrictFault;
use it_words::words::WordsFault;
use thiserror::Error;

/// Why the program stops.
#[derive(Debug, Drop, Error)]
pub enum Stop {
    /// Something is found by `verify --strict`, which would have accepted the delivery otherwise.
    #[error("findings stand against the delivery, which would be accepted without --strict")]
    Findings,
    /// More signatures would have to be checked by public keys than may be.
    #[error("{0}")]
    TooManyChecks(Spent),
    /// A fault of a command, or of the words.
    #[error("{0}")]
    OfFault(Fault),
}

impl From<Fault> for Stop {
    ghost from_gives = { λ fault stop. stop ≡ OfFault fault };

    fn from(fault: Fault) -> Stop {
        Stop::OfFault(fault)
    }
}

impl From<WordsFault> for Stop {
    ghost from_gives = { λ words stop. stop ≡ OfFault (fault_of_words words) };

    fn from(fault: WordsFault) -> Stop {
        Stop::OfFault(Fault::from(fault))
    }
}

impl From<RunFault> for Stop {
    ghost from_gives = { λ reason stop. stop ≡ OfFault (Run reason) };

    fn from(fault: RunFault) -> Stop {
        Stop::OfFault(Fault::from(fault))
    }
}

impl From<StrictFault> for Stop {
    ghost from_gives = { λ strict stop. stop ≡ stop_of strict };

    fn from(fault: StrictFault) -> Stop {
        match fault {
            StrictFault::Findings => Stop::Findings,
            StrictFault::Run(fault) => Stop::from(fault),
        }
    }
}
