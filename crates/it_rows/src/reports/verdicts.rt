//! The verdicts that rows describe.
use crate::reports::faults::fault_in;
use it_base::sequence::Sequence;
use it_base::text::Text;
use it_report::refusal::Refusal;
use it_report::verdict::Verdict;
use it_tables::RowFault;
use it_tables::row::{list_in, number_in, text_in};
use serde_json::Value;
use std::alloc::Global;

/// The verdict of a row, as its member `verdict` says.
///
/// # Errors
///
/// `BadMember` where a member is missing or unfit; `OutOfMemory` where memory was refused.
pub(crate) fn verdict_in(alloc: Global, row: &Value) -> Result<Verdict, RowFault> {
    match text_in(row, "verdict")? {
        "accepted" => accepted_in(alloc, row),
        "refused" => Ok(Verdict::Refused(refusal_in(alloc, row)?)),
        _ => Err(RowFault::BadMember("verdict")),
    }
}

fn accepted_in(alloc: Global, row: &Value) -> Result<Verdict, RowFault> {
    let steps = steps_in(alloc, row)?;
    let files = files_in(alloc, row)?;
    Ok(Verdict::Accepted { steps, files })
}

/// The steps of a row, each with its number of keys.
fn steps_in(alloc: Global, row: &Value) -> Result<Sequence<(Text, u64)>, RowFault> {
    let mut steps = Vec::new(alloc);
    for step in list_in(row, "steps")? {
        let keys = number_in(step, "keys")?;
        steps.push((named(alloc, step, "name")?, keys))?;
    }
    Ok(Sequence::from(steps))
}

fn files_in(alloc: Global, row: &Value) -> Result<Sequence<Text>, RowFault> {
    let mut files = Vec::new(alloc);
    for path in list_in(row, "files")? {
        let path = path.as_str().ok_or(RowFault::BadMember("files"))?;
        files.push(Text::copy(alloc, path)?)?;
    }
    Ok(Sequence::from(files))
}

/// The refusal of a row: its fault, at the sublayouts of the row.
///
/// # Errors
///
/// `BadMember` where a member is missing or unfit; `OutOfMemory` where memory was refused.
pub(crate) fn refusal_in(alloc: Global, row: &Value) -> Result<Refusal, RowFault> {
    let at = places_in(alloc, row)?;
    let fault = fault_in(alloc, row)?;
    Ok(Refusal { at, fault })
}

/// The sublayouts down to the fault of a row, each by its step and its key id.
fn places_in(alloc: Global, row: &Value) -> Result<Sequence<(Text, Text)>, RowFault> {
    let mut places = Vec::new(alloc);
    for place in list_in(row, "at")? {
        places.push(place_of(alloc, place)?)?;
    }
    Ok(Sequence::from(places))
}

fn place_of(alloc: Global, place: &Value) -> Result<(Text, Text), RowFault> {
    let step = named(alloc, place, "step")?;
    let key = named(alloc, place, "key")?;
    Ok((step, key))
}

/// The text of the member of this name.
///
/// # Errors
///
/// `BadMember` where there is none; `OutOfMemory` where memory was refused.
pub(crate) fn named(alloc: Global, row: &Value, name: &'static str) -> Result<Text, RowFault> {
    Ok(Text::copy(alloc, text_in(row, name)?)?)
}
