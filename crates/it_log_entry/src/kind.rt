//! Kinds of entries.
ghost use Rattle.it_log_entry.specs.LogEntry.{IsKind};

use it_base::text::Text;
use it_borrowed::parts::{FromBorrowed, part};
use json::Value;
use std::alloc::{AllocError, Global};

/// What kind of body an entry has.
#[derive(Drop)]
pub struct EntryKind {
    /// The kind, such as `dsse`.
    pub kind: Text,
    /// The version of the kind, such as `0.0.1`.
    pub version: Text,
}

impl FromBorrowed for EntryKind {
    ghost is_of = { IsKind };

    fn from_borrowed(alloc: Global, value: &Value<'_>) -> Result<Option<EntryKind>, AllocError> {
        let Some(kind) = part::<Text>(alloc, value, "kind")? else {
            return Ok(None);
        };
        let Some(version) = part::<Text>(alloc, value, "version")? else {
            return Ok(None);
        };
        Ok(Some(EntryKind { kind, version }))
    }
}
