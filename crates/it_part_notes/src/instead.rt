//! What an object is that is no envelope.
ghost use Rattle.std.specs.Prelude.{IfOk, IfSome};
ghost use Rattle.it_borrowed.specs.Tree.{as_data};
ghost use Rattle.it_part_notes.specs.Instead.{IsInstead};

use it_base::text::Text;
use it_borrowed::document::member;
use it_borrowed::parts::part;
use json::Value;
use std::alloc::{AllocError, Global};

/// What an object is that stands in place of an envelope.
#[derive(Clone, Copy, Debug, Drop, PartialEq, Eq)]
pub enum Instead {
    /// It has a member `dsseEnvelope`, as a Sigstore bundle around an envelope has.
    Bundle,
    /// It has a member `signed`, as the wrapper that in-toto used before DSSE has.
    Wrapper,
    /// Its member `_type` is `layout`: the body of an envelope.
    Layout,
    /// Its member `_type` is `link`: the body of an envelope.
    Link,
}

/// What an object is in place of an envelope, if that is known.
///
/// # Errors
///
/// `AllocError` where memory was refused.
pub(crate) fn instead_of(alloc: Global, object: &Value<'_>) -> Result<Option<Instead>, AllocError>
    ensures { IfOk result (λ found. IfSome found (IsInstead (as_data object.now))) }
{
    if member(object, "dsseEnvelope").is_some() {
        return Ok(Some(Instead::Bundle));
    }
    if member(object, "signed").is_some() {
        return Ok(Some(Instead::Wrapper));
    }
    body_of(alloc, object)
}

/// Which body of an envelope an object is.
fn body_of(alloc: Global, object: &Value<'_>) -> Result<Option<Instead>, AllocError>
    ensures { IfOk result (λ found. IfSome found (IsInstead (as_data object.now))) }
{
    let Some(found) = part::<Text>(alloc, object, "_type")? else {
        return Ok(None);
    };
    match found.as_str() {
        "layout" => Ok(Some(Instead::Layout)),
        "link" => Ok(Some(Instead::Link)),
        _ => Ok(None),
    }
}
