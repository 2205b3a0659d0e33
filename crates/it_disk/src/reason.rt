//! Why the system failed, in its own words.
use std::alloc::{AllocError, Global};
use std::io;

/// The system's own words, without the number of the error.
pub(crate) fn reason_of(alloc: Global, error: &io::Error) -> Result<String, AllocError> {
    let text = format!(in alloc; "{error}")?;
    match text.as_str().split_once(" (os error ") {
        Some((reason, _)) => String::from_str(alloc, reason),
        None => Ok(text),
    }
}
