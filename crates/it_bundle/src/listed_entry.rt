//! Elements of the list of entries.
ghost use Rattle.it_bundle.specs.Entries.{IsListedEntry};

use it_borrowed::parts::FromBorrowed;
use it_log_entry::LogEntry;
use json::Value;
use std::alloc::{AllocError, Global};

/// An element of the list of entries. One that is no entry says nothing of the others.
#[derive(Drop)]
pub enum ListedEntry {
    /// An entry.
    Entry(LogEntry),
    /// One that does not read.
    Unreadable,
}

impl FromBorrowed for ListedEntry {
    ghost is_of = { IsListedEntry };

    fn from_borrowed(alloc: Global, value: &Value<'_>) -> Result<Option<ListedEntry>, AllocError> {
        match LogEntry::from_borrowed(alloc, value)? {
            Some(entry) => Ok(Some(ListedEntry::Entry(entry))),
            None => Ok(Some(ListedEntry::Unreadable)),
        }
    }
}
