//! The status that the program ends with.
use it_digest::reader::DigestFault;
use it_outcome::{RunFault, Status, exit_of};
use it_tables::RowFault;
use it_tables::row::text_in;
use serde_json::Value;
use std::alloc::Global;

/// The status that the program ends with where a command ends with the `outcome`.
///
/// # Errors
///
/// `BadMember` where the outcome is not one of those below; `OutOfMemory` where memory was refused.
pub(crate) fn exit(alloc: Global, row: &Value) -> Result<String, RowFault> {
    let name = text_in(row, "outcome")?;
    let outcome = outcome_of(name).ok_or(RowFault::BadMember("outcome"))?;
    Ok(format!(in alloc; "{}", exit_of(&outcome))?)
}

fn outcome_of(name: &str) -> Option<Result<Status, RunFault>> {
    match name {
        "Good" => Some(Ok(Status::Good)),
        "Refused" => Some(Ok(Status::Refused)),
        "Write" => Some(Err(RunFault::Write)),
        "OutOfMemory" => Some(Err(RunFault::OutOfMemory)),
        "UnknownKey" => Some(Err(RunFault::UnknownKey)),
        "BadName" => Some(Err(RunFault::BadName)),
        "Digest(Read)" => Some(Err(RunFault::Digest(DigestFault::Read))),
        "Digest(TooLarge)" => Some(Err(RunFault::Digest(DigestFault::TooLarge))),
        _ => None,
    }
}
