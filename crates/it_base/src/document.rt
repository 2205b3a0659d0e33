//! JSON documents and their members.
ghost use Rattle.std.specs.Prelude.{◌≡◌, IfOk, option_map};
ghost use Rattle.serde_json.specs.View.{view};
ghost use Rattle.it_base.specs.Document.{IsDocument, member_at};
ghost use Rattle.it_base.specs.Finds.{FindsAs};

use serde_json::Value;
use std::alloc::{AllocError, Global};

/// Reads a JSON document from all of the bytes.
///
/// The result is the tree, or `None` where the bytes are not a document: bad syntax, bad UTF-8, or
/// nesting deeper than 127 levels.
///
/// # Errors
///
/// `AllocError` where memory was refused.
pub fn read_document(alloc: Global, bytes: &[u8]) -> Result<Option<Value>, AllocError>
    ensures { IfOk result (FindsAs view (IsDocument bytes.now)) }
{
    match Value::from_slice(alloc, bytes) {
        Ok(value) => Ok(Some(value)),
        Err(e) => {
            if e.is_memory() {
                Err(AllocError)
            } else {
                Ok(None)
            }
        }
    }
}

/// The member of this name, where the value is an object that has it. A member whose value is null
/// counts as missing, and of two members of one name the last counts.
pub fn member<'v>(value: &'v Value, name: &str) -> Option<&'v Value>
    ensures { option_map (λ v. view v.now) result ≡ member_at name.now (view value.now) }
{
    match value.get(name) {
        None => None,
        Some(Value::Null) => None,
        Some(found) => Some(found),
    }
}
