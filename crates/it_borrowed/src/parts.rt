//! Values in a document, and the members that hold them.
ghost use Rattle.std.specs.Prelude.{◌≡◌, IfOk};
ghost use Rattle.serde_json.specs.Data.{Data};
ghost use Rattle.it_base.specs.Document.{OfDocument};
ghost use Rattle.it_base.specs.Finds.{Finds};
ghost use Rattle.it_base.specs.Parts.{IsPart, IsPartOr};
ghost use Rattle.it_borrowed.specs.Tree.{as_data};

use crate::document::{member, read_document};
use json::{Scratch, Value};
use std::alloc::{AllocError, Global};

/// A value that can be read from a part of a document.
pub trait FromBorrowed: Drop {
    // which value a part of a document is
    ghost is_of: { Data → Self → Type 0 };

    /// Reads a part of a document as such a value; `None` where it is not one.
    ///
    /// # Errors
    ///
    /// `AllocError` where memory was refused.
    fn from_borrowed(alloc: Global, value: &Value<'_>) -> Result<Option<Self>, AllocError>
        ensures { IfOk result (Finds (is_of (as_data value.now))) };
}

/// A whole JSON document, read as a value, or `None` where the bytes are not a document or the
/// document is not such a value.
///
/// # Errors
///
/// `AllocError` where memory was refused.
pub fn from_bytes<T: FromBorrowed>(alloc: Global, bytes: &[u8]) -> Result<Option<T>, AllocError>
    ensures { IfOk result (Finds (OfDocument T.is_of bytes.now)) }
{
    let mut scratch = Scratch::new(alloc);
    let Some(value) = read_document(alloc, bytes, &mut scratch)? else {
        return Ok(None);
    };
    T::from_borrowed(alloc, &value)
}

/// The member of this name, read as a value, or `None` where it is missing or not such a value.
///
/// # Errors
///
/// `AllocError` where memory was refused.
pub fn part<T: FromBorrowed>(
    alloc: Global,
    value: &Value<'_>,
    name: &str,
) -> Result<Option<T>, AllocError>
    ensures { IfOk result (Finds (IsPart T.is_of name.now (as_data value.now))) }
{
    match member(value, name) {
        None => Ok(None),
        Some(found) => T::from_borrowed(alloc, found),
    }
}

/// The member of this name, read as a value; `missing` where there is no such member, and `None`
/// where there is one that is not such a value.
///
/// # Errors
///
/// `AllocError` where memory was refused.
pub fn part_or<T: FromBorrowed>(
    alloc: Global,
    value: &Value<'_>,
    name: &str,
    missing: T,
) -> Result<Option<T>, AllocError>
    ensures { IfOk result (Finds (IsPartOr T.is_of missing name.now (as_data value.now))) }
{
    match member(value, name) {
        None => Ok(Some(missing)),
        Some(found) => T::from_borrowed(alloc, found),
    }
}

/// The member of this name in the JSON document that the bytes are, read as a value; `None` where
/// they are no document, or where it has no such member or one that is not such a value.
///
/// # Errors
///
/// `AllocError` where memory was refused.
pub fn part_in<T: FromBorrowed>(
    alloc: Global,
    bytes: &[u8],
    name: &str,
) -> Result<Option<T>, AllocError>
    ensures { IfOk result (Finds (OfDocument (IsPart T.is_of name.now) bytes.now)) }
{
    let mut scratch = Scratch::new(alloc);
    let Some(value) = read_document(alloc, bytes, &mut scratch)? else {
        return Ok(None);
    };
    part(alloc, &value, name)
}
