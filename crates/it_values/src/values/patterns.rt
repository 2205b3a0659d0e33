//! Patterns: what they match, in how many steps, and what they lend.
use it_glob::Pattern;
use it_tables::RowFault;
use it_tables::row::{number_if, number_in, text_in};
use serde_json::Value;
use std::alloc::Global;

/// What a call on the pattern of a row answers.
pub(crate) fn answer(alloc: Global, call: &str, row: &Value) -> Result<String, RowFault> {
    let pattern = pattern_in(alloc, row)?;
    match call {
        "matches" => matches(alloc, &pattern, row),
        "steps" => steps(alloc, &pattern, row),
        "fails within" => fails_within(alloc, &pattern, row),
        "front" => Ok(String::from_str(alloc, pattern.literal_front())?),
        "front length" => Ok(pattern.literal_front().len().to_string(alloc)?),
        "text" => Ok(String::from_str(alloc, pattern.text())?),
        _ => Err(RowFault::UnknownCall),
    }
}

/// The text of a member, repeated as often as the row's `times` says, or once.
fn repeated(alloc: Global, row: &Value, name: &'static str) -> Result<String, RowFault> {
    let times = number_if(row, "times").unwrap_or(1);
    Ok(text_in(row, name)?.repeat(alloc, times as usize)?)
}

fn pattern_in(alloc: Global, row: &Value) -> Result<Pattern, RowFault> {
    let text = repeated(alloc, row, "pattern")?;
    Ok(Pattern::read(alloc, text.as_str())?)
}

fn matches(alloc: Global, pattern: &Pattern, row: &Value) -> Result<String, RowFault> {
    let path = repeated(alloc, row, "path")?;
    Ok(pattern.matches(path.as_str()).to_string(alloc)?)
}

/// Whether the pattern matches, and in how many steps.
fn steps(alloc: Global, pattern: &Pattern, row: &Value) -> Result<String, RowFault> {
    let (matched, steps) = pattern.matches_counted(text_in(row, "path")?);
    Ok(format!(in alloc; "{matched} in {steps}")?)
}

/// Whether the pattern is found not to match within the `most` steps of the row.
fn fails_within(alloc: Global, pattern: &Pattern, row: &Value) -> Result<String, RowFault> {
    let (matched, steps) = pattern.matches_counted(text_in(row, "path")?);
    let within = !matched && steps <= number_in(row, "most")?;
    Ok(within.to_string(alloc)?)
}
