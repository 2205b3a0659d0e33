//! JSON documents and their members.
ghost use Rattle.std.specs.Prelude.{◌≡◌, IfOk, IfSome, is_some, option_map};
ghost use Rattle.json.specs.Value.{value_view};
ghost use Rattle.serde_json.specs.Find.{as_object};
ghost use Rattle.it_base.specs.Document.{IsDocument, member_at};
ghost use Rattle.it_base.specs.Finds.{FindsAs};
ghost use Rattle.it_borrowed.specs.Tree.{as_data};
ghost use Rattle.it_borrowed.specs.Json.{IsJson};

use crate::numbers::has_numbers_in_range;
use json::{Error, Reader, Scratch, Value};
use std::alloc::{AllocError, Global};

/// How deep a document nests at most.
const MOST_LEVELS: usize = 127;

/// Reads a JSON document from all of the bytes. `scratch` keeps its texts that are written with
/// escapes.
///
/// The result is the tree, or `None` where the bytes are not a document: bad syntax, bad UTF-8, a
/// number out of range, or nesting deeper than 127 levels. They are the documents that
/// `it_base::document::read_document` reads.
///
/// # Errors
///
/// `AllocError` where memory was refused.
pub fn read_document<'t>(
    alloc: Global,
    bytes: &'t [u8],
    scratch: &'t mut Scratch,
) -> Result<Option<Value<'t>>, AllocError>
    ensures document { IfOk result (FindsAs as_data (IsDocument bytes.now)) }
    ensures tree { IfOk result (λ found. IfSome found (λ v. IsJson bytes.now (value_view v))) }
{
    let Ok(text) = std::str::from_utf8(bytes) else {
        return Ok(None);
    };
    let Some(value) = read_tree(alloc, text, scratch)? else {
        return Ok(None);
    };
    if !has_numbers_in_range(&value) {
        return Ok(None);
    }
    Ok(Some(value))
}

/// Reads the tree that a text is, in which each object has all of its members in their order, those
/// of one name too, and numbers may be out of range. `scratch` keeps its texts that are written
/// with escapes. The result is `None` where the text is no tree: bad syntax, or nesting deeper than
/// 127 levels.
///
/// # Errors
///
/// `AllocError` where memory was refused.
pub fn read_tree<'t>(
    alloc: Global,
    text: &'t str,
    scratch: &'t mut Scratch,
) -> Result<Option<Value<'t>>, AllocError>
    ensures { IfOk result (FindsAs value_view (IsJson text.now)) }
{
    let mut reader = Reader::new(text, scratch)?;
    match Value::read(alloc, &mut reader, MOST_LEVELS) {
        Ok(_) if reader.next().is_some() => Ok(None),
        Ok(value) => Ok(Some(value)),
        Err(Error::OutOfMemory) => Err(AllocError),
        Err(Error::Invalid | Error::TooLong | Error::DuplicateKey) => Ok(None),
    }
}

/// The member of this name, where the value is an object that has it. A member whose value is null
/// counts as missing, and of two members of one name the last counts.
pub fn member<'v, 't>(value: &'v Value<'t>, name: &str) -> Option<&'v Value<'t>>
    ensures { option_map (λ v. as_data v.now) result ≡ member_at name.now (as_data value.now) }
{
    match value.get(name) {
        None => None,
        Some(found) if found.is_null() => None,
        Some(found) => Some(found),
    }
}

/// Whether the value is an object.
pub fn is_object(value: &Value<'_>) -> bool
    ensures { result ≡ is_some (as_object (as_data value.now)) }
{
    matches!(value, Value::Object(_))
}
