//! The subject's name, in the value of the extension of names.
ghost use Rattle.std.specs.Prelude.{ℕ, List, MatchOption, IfOk};
ghost use Rattle.it_certificate.specs.Name.{IsName, IsNameContent, IsOtherName, IsPlainName};
ghost use Rattle.it_certificate.specs.Within.{Wraps};

use crate::contents::contents_under;
use it_der::content_of;
use std::alloc::{AllocError, Global};

const SEQUENCE: u8 = 48;

const URI: u8 = 134;

const MAIL: u8 = 129;

const OTHER: u8 = 160;

const UTF8_STRING: u8 = 12;

/// The tags of a name of another kind: its kind, and the name.
const OTHER_TAGS: [u8; 2] = [6, 160];

/// 1.3.6.1.4.1.57264.1.7: Fulcio's own kind of name.
const FULCIO_NAME: [u8; 10] = [43, 6, 1, 4, 1, 131, 191, 48, 1, 7];

/// The one name that the value of an extension is (RFC 5280, section 4.2.1.6): a URI, an address of
/// mail, or a name of Fulcio's own kind. `None` where it is none, or more than one.
///
/// # Errors
///
/// `AllocError` where memory was refused.
pub(crate) fn read_name(alloc: Global, value: &[u8]) -> Result<Option<&[u8]>, AllocError>
    ensures { IfOk result (λ found. MatchOption found
        ((name : List ℕ) → IsName value.now name → ⊥) (λ name. IsName value.now name.now)) }
{
    match content_of(value, SEQUENCE) {
        Some(content) => name_in(alloc, content),
        None => Ok(None),
    }
}

fn name_in(alloc: Global, content: &[u8]) -> Result<Option<&[u8]>, AllocError>
    ensures { IfOk result (λ found. MatchOption found
        ((name : List ℕ) → IsNameContent content.now name → ⊥)
        (λ name. IsNameContent content.now name.now)) }
{
    match plain_name_in(content) {
        Some(name) => Ok(Some(name)),
        None => wrapped_name_in(alloc, content),
    }
}

fn plain_name_in(content: &[u8]) -> Option<&[u8]>
    ensures { MatchOption result ((name : List ℕ) → IsPlainName content.now name → ⊥)
        (λ name. IsPlainName content.now name.now) }
{
    match content_of(content, URI) {
        Some(name) => Some(name),
        None => content_of(content, MAIL),
    }
}

fn wrapped_name_in(alloc: Global, content: &[u8]) -> Result<Option<&[u8]>, AllocError>
    ensures { IfOk result (λ found. MatchOption found
        ((name : List ℕ) → Wraps 160 IsOtherName content.now name → ⊥)
        (λ name. Wraps 160 IsOtherName content.now name.now)) }
{
    match content_of(content, OTHER) {
        Some(inner) => other_name_in(alloc, inner),
        None => Ok(None),
    }
}

fn other_name_in(alloc: Global, content: &[u8]) -> Result<Option<&[u8]>, AllocError>
    ensures { IfOk result (λ found. MatchOption found
        ((name : List ℕ) → IsOtherName content.now name → ⊥)
        (λ name. IsOtherName content.now name.now)) }
{
    let Some(contents) = contents_under(alloc, content, &OTHER_TAGS)? else {
        return Ok(None);
    };
    if contents[0] != FULCIO_NAME.as_slice() {
        return Ok(None);
    }
    Ok(content_of(contents[1], UTF8_STRING))
}
