//! The faults that rows describe: the name of each, and its details.
use crate::reports::parts::{item_in, layout_part_in, policy_part_in, side_in};
use crate::reports::verdicts::named;
use it_base::document::member;
use it_report::refusal::Fault;
use it_tables::RowFault;
use it_tables::row::{number_in, text_in};
use serde_json::Value;
use std::alloc::Global;

/// The fault of a row, as its member `fault` names it.
///
/// # Errors
///
/// `BadMember` where a member is missing or unfit; `OutOfMemory` where memory was refused.
pub(crate) fn fault_in(alloc: Global, row: &Value) -> Result<Fault, RowFault> {
    match text_in(row, "fault")? {
        "BadMoment" => Ok(Fault::BadMoment),
        "NoFiles" => Ok(Fault::NoFiles),
        "BadEnvelope" => Ok(Fault::BadEnvelope),
        "WrongPayloadType" => Ok(Fault::WrongPayloadType),
        "Expired" => Ok(Fault::Expired),
        "TooDeep" => Ok(Fault::TooDeep),
        "InspectionInSublayout" => Ok(Fault::InspectionInSublayout),
        "BadPolicy" => Ok(Fault::BadPolicy(policy_part_in(row)?)),
        "BadSums" => bad_sums(row),
        "BadLayout" => Ok(Fault::BadLayout(layout_part_in(alloc, row)?)),
        name => detailed(alloc, name, row),
    }
}

/// The bad line of the digest list by SHA-256, or by the algorithm that the row names.
fn bad_sums(row: &Value) -> Result<Fault, RowFault> {
    let line = number_in(row, "line")?;
    match member(row, "list") {
        None => Ok(Fault::BadSums(line)),
        Some(list) if list.as_str() == Some("sha512") => Ok(Fault::BadSums512(line)),
        Some(_) => Err(RowFault::BadMember("list")),
    }
}

/// The fault of this name, whose details are texts.
fn detailed(alloc: Global, name: &str, row: &Value) -> Result<Fault, RowFault> {
    match name {
        "OwnerMissing" => Ok(Fault::OwnerMissing(named(alloc, row, "key")?)),
        "RecordMissing" => Ok(Fault::RecordMissing(named(alloc, row, "inspection")?)),
        "BadRecord" => Ok(Fault::BadRecord(named(alloc, row, "inspection")?)),
        "NoExpectation" => Ok(Fault::NoExpectation(named(alloc, row, "path")?)),
        "NoProvenance" => Ok(Fault::NoProvenance(named(alloc, row, "path")?, best_in(row))),
        "TwoPayloads" => two_payloads(alloc, row),
        "Disagree" => disagree(alloc, row),
        "Threshold" => threshold(alloc, row),
        "RuleFailed" => rule_failed(alloc, row),
        _ => Err(RowFault::BadMember("fault")),
    }
}

/// The best level, if the row gives one.
fn best_in(row: &Value) -> Option<u8> {
    u8::try_from(member(row, "best")?.as_u64()?).ok()
}

fn two_payloads(alloc: Global, row: &Value) -> Result<Fault, RowFault> {
    let step = named(alloc, row, "step")?;
    let id = named(alloc, row, "key")?;
    Ok(Fault::TwoPayloads { step, id })
}

fn disagree(alloc: Global, row: &Value) -> Result<Fault, RowFault> {
    let step = named(alloc, row, "step")?;
    let id = named(alloc, row, "key")?;
    Ok(Fault::Disagree { step, id })
}

fn threshold(alloc: Global, row: &Value) -> Result<Fault, RowFault> {
    let found = number_in(row, "found")?;
    let needed = number_in(row, "needed")?;
    let step = named(alloc, row, "step")?;
    Ok(Fault::Threshold {
        step,
        found,
        needed,
    })
}

fn rule_failed(alloc: Global, row: &Value) -> Result<Fault, RowFault> {
    let side = side_in(row)?;
    let index = number_in(row, "rule")? as usize;
    let item = item_in(alloc, row)?;
    let path = named(alloc, row, "path")?;
    Ok(Fault::RuleFailed {
        item,
        side,
        index,
        path,
    })
}
