//! The commands on envelopes: their signing, and who signed them.
use crate::commands::devices::{ended, pipe_of};
use it_commands::{run_sign, run_signed};
use it_dsse::check::SignatureCheck;
use it_outcome::{RunFault, Status};
use it_tables::RowFault;
use it_tables::devices::Pipe;
use it_tables::rings::ring_in;
use it_tables::row::{bytes_in, text_in};
use serde_json::Value;
use std::alloc::Global;

/// How signing the `body` of the `type` under the `id` of the `ring` ends.
///
/// # Errors
///
/// `BadMember` where a member is missing or unfit; `OutOfMemory` where memory was refused.
pub(crate) fn sign(alloc: Global, row: &Value) -> Result<String, RowFault> {
    let ring = ring_in(alloc, row)?;
    let body = bytes_in(alloc, row, "body")?;
    let id = text_in(row, "id")?;
    let kind = text_in(row, "type")?;
    let mut pipe = pipe_of(alloc, row)?;
    let outcome = run_sign(alloc, &ring, id, kind, body.as_slice(), &mut pipe);
    ended(alloc, &outcome, &pipe)
}

/// How asking who of the `ring` signed the `envelope` ends.
///
/// # Errors
///
/// `BadMember` where a member is missing or unfit; `OutOfMemory` where memory was refused.
pub(crate) fn signed(alloc: Global, row: &Value) -> Result<String, RowFault> {
    let mut pipe = pipe_of(alloc, row)?;
    let outcome = name_signers(alloc, row, &mut pipe)?;
    ended(alloc, &outcome, &pipe)
}

fn name_signers(
    alloc: Global,
    row: &Value,
    pipe: &mut Pipe,
) -> Result<Result<Status, RunFault>, RowFault> {
    let envelope = text_in(row, "envelope")?;
    let ring = ring_in(alloc, row)?;
    let ids = ring.ids(alloc)?;
    let mut panel: Vec<Box<dyn SignatureCheck>> = Vec::new(alloc);
    panel.push(Box::new(alloc, ring)?)?;
    let outcome = run_signed(
        alloc,
        envelope.as_bytes(),
        ids.as_slice(),
        panel.as_slice(),
        pipe,
    );
    Ok(outcome)
}
