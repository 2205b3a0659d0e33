//! How a command ends.
ghost use Rattle.std.specs.Prelude.{◌≡◌};
ghost use Rattle.it_outcome.specs.Outcome.{exit_status};
ghost use Rattle.it_outcome.specs.declared.outcome.RunFault.TheVariants.{OutOfMemory};

use it_digest::reader::DigestFault;
use std::alloc::AllocError;
use thiserror::Error;

/// What a command found, once its whole output went out.
#[derive(Clone, Copy, Debug, PartialEq, Eq)]
pub enum Status {
    /// What was asked holds.
    Good,
    /// What was asked does not hold.
    Refused,
}

/// Why a command stopped before its whole output went out.
#[derive(Clone, Copy, Debug, PartialEq, Eq, Error)]
pub enum RunFault {
    /// The writer returned an error, or took nothing.
    #[error("cannot write the output")]
    Write,
    /// Memory was refused.
    #[error("out of memory")]
    OutOfMemory,
    /// The ring has no secret under the id.
    #[error("the ring has no such key")]
    UnknownKey,
    /// A file's name has a line feed, which a digest list cannot hold.
    #[error("a name with a line feed cannot stand in a digest list")]
    BadName,
    /// A file has no digest, for this reason.
    #[error("{}", digest_note(.0))]
    Digest(DigestFault),
    /// The bytes to sign onto are not a DSSE envelope.
    #[error("there is no envelope to sign onto")]
    NoEnvelope,
    /// The envelope that a signature is added to has a payload other than the body.
    #[error("the envelope has another payload than the body")]
    OtherPayload,
    /// The envelope that a signature is added to has another payload type.
    #[error("the envelope has another payload type")]
    OtherType,
    /// This line of the materials, counted from 1, is not one of a digest list, or repeats a path.
    #[error("line {0} of the materials is no line of a digest list, or repeats a path")]
    BadMaterials(u64),
    /// This line of the products, counted from 1, is not one of a digest list, or repeats a path.
    #[error("line {0} of the products is no line of a digest list, or repeats a path")]
    BadProducts(u64),
    /// This line of the subjects, counted from 1, is not one of a digest list, or repeats a path.
    #[error("line {0} of the subjects is no line of a digest list, or repeats a path")]
    BadSubjects(u64),
    /// There is no subject.
    #[error("there is no subject")]
    NoSubjects,
    /// The external parameters are not a JSON object, or nest more than 124 levels deep.
    #[error("the external parameters are no JSON object that nests at most 124 levels deep")]
    BadParameters,
}

impl From<AllocError> for RunFault {
    ghost from_gives = { λ _ fault. fault ≡ OutOfMemory };

    fn from(_error: AllocError) -> RunFault {
        RunFault::OutOfMemory
    }
}

fn digest_note(fault: &DigestFault) -> &'static str {
    match fault {
        DigestFault::Read => "cannot read the file",
        DigestFault::TooLarge => "the file is too large",
    }
}

/// The exit status of the program: 0 for `Good`, 1 for `Refused`, 3 for lack of memory, and 2 for
/// every other fault.
pub fn exit_of(outcome: &Result<Status, RunFault>) -> u8
    ensures { result ≡ exit_status outcome.now }
{
    match outcome {
        Ok(Status::Good) => 0,
        Ok(Status::Refused) => 1,
        Err(RunFault::OutOfMemory) => 3,
        Err(_) => 2,
    }
}
