//! The element at the front of some bytes.
ghost use Rattle.std.specs.Prelude.{ℕ, List, MatchOption};
ghost use Rattle.it_der.specs.Element.{BeginsWith, IsElement};

use crate::length::length_in;

/// The element at the front of some bytes, and what comes after it.
#[derive(Drop)]
pub struct First<'b> {
    /// Its tag.
    pub tag: u8,
    /// Its content.
    pub content: &'b [u8],
    /// The bytes after it.
    pub rest: &'b [u8],
}

/// The element at the front of some bytes (X.690, sections 8.1 and 10.1). `None` where none begins
/// them: where they end before it does, where its length is not in the definite form or could be
/// shorter, or where its content has more than 65,535 bytes.
pub fn first_element(bytes: &[u8]) -> Option<First<'_>>
    ensures { MatchOption result
        ((tag : ℕ) (content rest : List ℕ) → BeginsWith bytes.now tag content rest → ⊥)
        (λ first. BeginsWith bytes.now first.tag first.content.now first.rest.now) }
{
    if bytes.is_empty() {
        return None;
    }
    let Some(length) = length_in(&bytes[1..]) else {
        return None;
    };
    if length.rest.len() < length.number {
        return None;
    }
    let (content, rest) = length.rest.split_at(length.number);
    Some(First {
        tag: bytes[0],
        content,
        rest,
    })
}

/// The content of the one element of this tag that the bytes are. `None` where they are not such an
/// element, or have anything after it.
pub fn content_of(bytes: &[u8], tag: u8) -> Option<&[u8]>
    ensures { MatchOption result ((content : List ℕ) → IsElement bytes.now tag content → ⊥)
        (λ content. IsElement bytes.now tag content.now) }
{
    let Some(first) = first_element(bytes) else {
        return None;
    };
    if first.tag != tag {
        return None;
    }
    if !first.rest.is_empty() {
        return None;
    }
    Some(first.content)
}
