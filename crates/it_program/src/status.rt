//! The status that the program ends with.
ghost use Rattle.std.specs.Prelude.{◌≡◌};
ghost use Rattle.it_program.specs.Status.{program_status};

use crate::stop::Stop;
use it_disk::Fault;
use it_outcome::{Status, exit_of};

/// The exit status of the program: that of the command or of `Fault::Run`, and 2 where anything
/// else stops it.
///
/// `outcome` is the result of `run_to` or of `words`.
pub fn exit_status(outcome: &Result<Status, Stop>) -> u8
    ensures { result ≡ program_status outcome.now }
{
    match outcome {
        Ok(status) => exit_of(&Ok(*status)),
        Err(Stop::OfFault(Fault::Run(fault))) => exit_of(&Err(*fault)),
        Err(_) => 2,
    }
}
