//! What words are read as.
use crate::commands::shown_words::shown;
use it_tables::RowFault;
use it_tables::row::texts_in;
use it_words::words::{WordsFault, read_words};
use serde_json::Value;
use std::alloc::Global;

/// The values of the command that the `words` are, or that they are none.
///
/// # Errors
///
/// `BadMember` where they are not texts; `OutOfMemory` where memory was refused.
pub(crate) fn words(alloc: Global, row: &Value) -> Result<String, RowFault> {
    let words = texts_in(alloc, row, "words")?;
    match read_words(alloc, words.as_slice()) {
        Ok(words) => Ok(shown(alloc, &words)?),
        Err(WordsFault::Unread(_)) => Ok(String::from_str(alloc, "no command")?),
        Err(WordsFault::OutOfMemory) => Err(RowFault::OutOfMemory),
    }
}
