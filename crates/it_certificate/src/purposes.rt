//! The value of the extension of extended key usage.
ghost use Rattle.std.specs.Prelude.{◌≡◌, ◌==◌, IfOk, MatchOption, map};
ghost use Rattle.std.specs.List.{list_all, list_any};
ghost use Rattle.std.specs.Str.{bytes_eq};
ghost use Rattle.it_der.specs.Element.{tagged_of};
ghost use Rattle.it_certificate.specs.Purposes.{ArePurposes, IsPurposes};
ghost use Rattle.it_certificate.specs.Within.{Lists};

use it_der::{Element, content_of, elements_of};
use std::alloc::{AllocError, Global};

const SEQUENCE: u8 = 48;

const OBJECT_IDENTIFIER: u8 = 6;

/// 1.3.6.1.5.5.7.3.3: id-kp-codeSigning.
const CODE_SIGNING: [u8; 8] = [43, 6, 1, 5, 5, 7, 3, 3];

/// 2.5.29.37.0: anyExtendedKeyUsage.
const ANY: [u8; 4] = [85, 29, 37, 0];

/// What the holder of a key may use it for (RFC 5280, section 4.2.1.12), as far as it is looked at.
#[derive(Clone, Copy)]
pub struct Purposes {
    /// To sign code.
    pub code_signing: bool,
    /// Anything.
    pub any: bool,
}

/// The purposes that the value of an extension is. `None` where it is none.
///
/// # Errors
///
/// `AllocError` where memory was refused.
pub(crate) fn read_purposes(alloc: Global, value: &[u8]) -> Result<Option<Purposes>, AllocError>
    ensures { IfOk result (λ found. MatchOption found
        ((p : Purposes) → IsPurposes value.now p → ⊥) (λ p. IsPurposes value.now p)) }
{
    match content_of(value, SEQUENCE) {
        Some(content) => purposes_in(alloc, content),
        None => Ok(None),
    }
}

fn purposes_in(alloc: Global, content: &[u8]) -> Result<Option<Purposes>, AllocError>
    ensures { IfOk result (λ found. MatchOption found
        ((p : Purposes) → Lists ArePurposes content.now p → ⊥)
        (λ p. Lists ArePurposes content.now p)) }
{
    match elements_of(alloc, content)? {
        Some(elements) => Ok(purposes_of(&elements)),
        None => Ok(None),
    }
}

fn purposes_of(elements: &[Element<'_>]) -> Option<Purposes>
    ensures { MatchOption result ((p : Purposes) → ArePurposes (map tagged_of elements.now) p → ⊥)
        (λ p. ArePurposes (map tagged_of elements.now) p) }
{
    if elements.is_empty() {
        return None;
    }
    if !are_identifiers(elements) {
        return None;
    }
    Some(Purposes {
        code_signing: has_identifier(elements, &CODE_SIGNING),
        any: has_identifier(elements, &ANY),
    })
}

fn are_identifiers(elements: &[Element<'_>]) -> bool
    ensures { result ≡ list_all (λ e. e.tag == 6) (map tagged_of elements.now) }
{
    for element in elements {
        if element.tag != OBJECT_IDENTIFIER {
            return false;
        }
    }
    true
}

fn has_identifier(elements: &[Element<'_>], id: &[u8]) -> bool
    ensures { result ≡ list_any (λ e. bytes_eq e.content id.now) (map tagged_of elements.now) }
{
    for element in elements {
        if element.content == id {
            return true;
        }
    }
    false
}
