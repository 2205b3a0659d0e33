//! How a case differs, in words.
use crate::cases::run::Run;
use it_base::sequence::Sequence;
use std::alloc::{AllocError, Global};

/// What a case wants, and what is given in its place: the status and the report.
///
/// # Errors
///
/// `AllocError` where memory was refused.
pub(crate) fn difference_text(alloc: Global, run: &Run) -> Result<String, AllocError> {
    let Run {
        name,
        wanted,
        given,
    } = run;
    let mut text = format!(in alloc; "is {}\n", name.as_str())?;
    push_report(alloc, &mut text, "wanted", wanted.status, &wanted.report)?;
    push_report(alloc, &mut text, "given", given.status, &given.report)?;
    Ok(text)
}

fn push_report(
    alloc: Global,
    text: &mut String,
    title: &str,
    status: u8,
    report: &Sequence<u8>,
) -> Result<(), AllocError> {
    let report = String::from_utf8_lossy(alloc, report.as_slice())?;
    let report = report.as_str();
    text.push_str(format!(in alloc; "{title}, with status {status}:\n{report}")?.as_str())
}
