//! How the words of the commands are shown.

use super::usages::{SUMMARY, USAGES, VERSION};
use std::alloc::{AllocError, Global};

/// The usage of a command.
pub(super) struct Usage {
    /// The name of the command.
    pub(super) name: &'static str,
    /// The command with its words.
    pub(super) line: &'static str,
    /// What the command does, and a line on each option.
    pub(super) text: &'static str,
}

/// The usage of the command of this name, where there is one.
pub(super) fn usage_of(name: &str) -> Option<&'static Usage> {
    for usage in USAGES.as_slice() {
        if usage.name == name {
            return Some(usage);
        }
    }
    None
}

/// The usage of the command whose name begins most like the word, in its first two bytes at least:
/// the shortest name of several, or none.
pub(super) fn nearest_to(word: &str) -> Option<&'static Usage> {
    let mut nearest: Option<&'static Usage> = None;
    let mut most = 1;
    for usage in USAGES.as_slice() {
        let alike = alike_bytes(word.as_bytes(), usage.name.as_bytes());
        if alike > most || alike == most && is_shorter(usage, nearest) {
            most = alike;
            nearest = Some(usage);
        }
    }
    nearest
}

/// Whether the name of a command is shorter than that of another one, where there is one.
fn is_shorter(usage: &Usage, other: Option<&Usage>) -> bool {
    match other {
        Some(other) => usage.name.len() < other.name.len(),
        None => false,
    }
}

/// How many bytes two texts have in common at their beginnings.
fn alike_bytes(a: &[u8], b: &[u8]) -> usize {
    match a.iter().zip(b.iter()).position(|(x, y)| x != y) {
        Some(place) => place,
        None => a.len().min(b.len()),
    }
}

/// What was wrong, the version, and the usage of every command.
pub(super) fn of_all(alloc: Global, wrong: &str) -> Result<String, AllocError> {
    let mut text = format!(in alloc; "{wrong}\n\n{VERSION} {SUMMARY}")?;
    for usage in USAGES.as_slice() {
        text.push_str(below(alloc, usage)?.as_str())?;
    }
    Ok(text)
}

/// What was wrong, and the usage of a command.
pub(super) fn of_one(alloc: Global, wrong: &str, usage: &Usage) -> Result<String, AllocError> {
    let usage = below(alloc, usage)?;
    format!(in alloc; "{wrong}{usage}")
}

/// A usage as it stands below other text.
fn below(alloc: Global, usage: &Usage) -> Result<String, AllocError> {
    let Usage { line, text, .. } = usage;
    format!(in alloc; "\n\n{line}\n{text}")
}
