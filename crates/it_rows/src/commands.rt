//! What words are read as, what some commands give, also over devices that fail, and the exit
//! status.
mod bytes;
mod command_line;
mod devices;
mod envelopes;
mod exits;
mod shown_words;

use it_tables::RowFault;
use serde_json::Value;
use std::alloc::Global;

/// What a call of the command line or of a command gives.
pub(crate) fn answer(alloc: Global, call: &str, row: &Value) -> Result<String, RowFault> {
    match call {
        "words" => command_line::words(alloc, row),
        "match" => bytes::matches(alloc, row),
        "pae" => bytes::pae(alloc, row),
        "digest" => bytes::digest(alloc, row),
        "digest_unread" => bytes::digest_unread(alloc, row),
        "digest_of_broken" => bytes::digest_of_broken(alloc, row),
        "sign" => envelopes::sign(alloc, row),
        "signed" => envelopes::signed(alloc, row),
        "exit" => exits::exit(alloc, row),
        _ => Err(RowFault::UnknownCall),
    }
}
