//! Bytes that come after how many they are.
ghost use Rattle.std.specs.Prelude.{◌≡◌, ◌^◌, ◌<◌, ◌++◌, ℕ, List, MatchOption, length};
ghost use Rattle.it_certificate_log.specs.Counted.{counted};
ghost use Rattle.it_certificate_log.specs.inside.Begins.{BeginsCounted};

/// Bytes, and what comes after them.
#[derive(Drop)]
pub(crate) struct Front<'b> {
    pub(crate) bytes: &'b [u8],
    pub(crate) rest: &'b [u8],
}

/// The bytes at the front of some that come after their length, two bytes, highest first. `None`
/// where fewer bytes come after it than it says.
pub(crate) fn first_counted(bytes: &[u8]) -> Option<Front<'_>>
    ensures { MatchOption result
        ((content rest : List ℕ) → BeginsCounted bytes.now content rest → ⊥)
        (λ front. BeginsCounted bytes.now front.bytes.now front.rest.now) }
{
    if bytes.len() < 2 {
        return None;
    }
    let size = 256 * bytes[0] as usize + bytes[1] as usize;
    front_of(&bytes[2..], size)
}

/// So many bytes at the front of some; `None` where there are fewer.
pub(crate) fn front_of(bytes: &[u8], size: usize) -> Option<Front<'_>>
    ensures { MatchOption result
        ((front rest : List ℕ) → length front ≡ size → bytes.now ≡ front ++ rest → ⊥)
        (λ front. (length front.bytes.now ≡ size)
        × (bytes.now ≡ front.bytes.now ++ front.rest.now)) }
{
    if bytes.len() < size {
        return None;
    }
    let (front, rest) = bytes.split_at(size);
    Some(Front { bytes: front, rest })
}
