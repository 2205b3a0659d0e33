//! The bytes of the first element of some bytes.
ghost use Rattle.std.specs.Prelude.{◌≡◌, ℕ, List};
ghost use Rattle.it_der.specs.Element.{BeginsWith, wrap};

use it_der::first_element;

/// The bytes of the element that begins some bytes, its tag and its length with them; no bytes
/// where none does.
pub(crate) fn first_bytes(bytes: &[u8]) -> &[u8]
    ensures { (tag : ℕ) (content rest : List ℕ) → BeginsWith bytes.now tag content rest
        → result.now ≡ wrap tag content }
{
    match first_element(bytes) {
        Some(first) => {
            let (front, _) = bytes.split_at(bytes.len() - first.rest.len());
            front
        }
        None => &[],
    }
}
