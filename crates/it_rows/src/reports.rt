//! The reports of the verdicts that rows describe.
mod faults;
mod parts;
mod verdicts;

use crate::reports::verdicts::{refusal_in, verdict_in};
use it_json_report::form::{ReportForm, report_in};
use it_json_report::json_report;
use it_report::verdict::Verdict;
use it_tables::RowFault;
use serde_json::Value;
use std::alloc::Global;

/// What a call on the verdict of a row answers.
pub(crate) fn answer(alloc: Global, call: &str, row: &Value) -> Result<String, RowFault> {
    match call {
        "json report" => text_of(alloc, json_report(alloc, &verdict_in(alloc, row)?)?),
        "report in json" => report(alloc, ReportForm::Json, &verdict_in(alloc, row)?),
        "report in lines" => report(alloc, ReportForm::Lines, &verdict_in(alloc, row)?),
        "refusal" => refusal_name(alloc, row),
        _ => Err(RowFault::UnknownCall),
    }
}

/// The report of a verdict, in this form.
fn report(alloc: Global, form: ReportForm, verdict: &Verdict) -> Result<String, RowFault> {
    text_of(alloc, report_in(alloc, form, verdict)?)
}

fn text_of(alloc: Global, bytes: Vec<u8>) -> Result<String, RowFault> {
    Ok(String::from_utf8_lossy(alloc, bytes.as_slice())?)
}

/// The number and the name of the refusal of a row.
fn refusal_name(alloc: Global, row: &Value) -> Result<String, RowFault> {
    let refusal = refusal_in(alloc, row)?;
    let (number, name) = (refusal.number(), refusal.name());
    Ok(format!(in alloc; "{number} {name}")?)
}
