//! Values in a document, and the members that hold them.
ghost use Rattle.std.specs.Prelude.{◌≡◌, IfOk};
ghost use Rattle.serde_json.specs.Data.{Data};
ghost use Rattle.serde_json.specs.View.{view};
ghost use Rattle.it_base.specs.Document.{OfDocument};
ghost use Rattle.it_base.specs.Finds.{Finds};
ghost use Rattle.it_base.specs.Parts.{IsPart, IsPartOr};

use crate::document::{member, read_document};
use serde_json::Value;
use std::alloc::{AllocError, Global};

/// A value that can be read from a part of a document.
pub trait FromDocument: Drop {
    // which value a part of a document is
    ghost is_of: { Data → Self → Type 0 };

    /// Reads a part of a document as such a value; `None` where it is not one.
    ///
    /// # Errors
    ///
    /// `AllocError` where memory was refused.
    fn from_document(alloc: Global, value: &Value) -> Result<Option<Self>, AllocError>
        ensures { IfOk result (Finds (is_of (view value.now))) };
}

/// A whole JSON document, read as a value, or `None` where the bytes are not a document or the
/// document is not such a value.
///
/// # Errors
///
/// `AllocError` where memory was refused.
pub fn from_bytes<T: FromDocument>(alloc: Global, bytes: &[u8]) -> Result<Option<T>, AllocError>
    ensures { IfOk result (Finds (OfDocument T.is_of bytes.now)) }
{
    let Some(value) = read_document(alloc, bytes)? else {
        return Ok(None);
    };
    T::from_document(alloc, &value)
}

/// The member of this name, read as a value, or `None` where it is missing or not such a value.
///
/// # Errors
///
/// `AllocError` where memory was refused.
pub fn part<T: FromDocument>(
    alloc: Global,
    value: &Value,
    name: &str,
) -> Result<Option<T>, AllocError>
    ensures { IfOk result (Finds (IsPart T.is_of name.now (view value.now))) }
{
    match member(value, name) {
        None => Ok(None),
        Some(found) => T::from_document(alloc, found),
    }
}

/// The member of this name, read as a value; `missing` where there is no such member, and `None`
/// where there is one that is not such a value.
///
/// # Errors
///
/// `AllocError` where memory was refused.
pub fn part_or<T: FromDocument>(
    alloc: Global,
    value: &Value,
    name: &str,
    missing: T,
) -> Result<Option<T>, AllocError>
    ensures { IfOk result (Finds (IsPartOr T.is_of missing name.now (view value.now))) }
{
    match member(value, name) {
        None => Ok(Some(missing)),
        Some(found) => T::from_document(alloc, found),
    }
}
