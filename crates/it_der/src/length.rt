//! How long a content is.
ghost use Rattle.std.specs.Prelude.{◌≡◌, ℕ, ◌/◌, ◌%◌, ◌^◌, ◌<◌, ◌≤◌, List, ◌∷◌, ◌++◌, MatchOption};
ghost use Rattle.it_der.specs.Element.{length_form};

// What says that the length is in the byte after it, or in the two bytes after it.
pub(crate) const IN_ONE_BYTE: u8 = 129;

pub(crate) const IN_TWO_BYTES: u8 = 130;

/// A length, and what comes after it.
#[derive(Drop)]
pub(crate) struct Length<'b> {
    pub(crate) number: usize,
    pub(crate) rest: &'b [u8],
}

/// The length at the front of some bytes. `None` where none is there, or one that could be shorter
/// or that has more than two bytes.
pub(crate) fn length_in(bytes: &[u8]) -> Option<Length<'_>>
    ensures { MatchOption result
        ((n : ℕ) (rest : List ℕ) → n < 2 ^ 16 → bytes.now ≡ length_form n ++ rest → ⊥)
        (λ length. (length.number < 2 ^ 16)
        × (bytes.now ≡ length_form length.number ++ length.rest.now)) }
{
    if bytes.is_empty() {
        return None;
    }
    let first = bytes[0];
    let rest = &bytes[1..];
    if first < 128 {
        return Some(Length {
            number: first as usize,
            rest,
        });
    }
    if first == IN_ONE_BYTE {
        return in_one_byte(rest);
    }
    if first == IN_TWO_BYTES {
        return in_two_bytes(rest);
    }
    None
}

// A length from 128 to 255.
fn in_one_byte(bytes: &[u8]) -> Option<Length<'_>>
    ensures { MatchOption result
        ((n : ℕ) (rest : List ℕ) → 128 ≤ n → n < 256 → bytes.now ≡ n ∷ rest → ⊥)
        (λ length. (128 ≤ length.number) × (length.number < 256)
        × (bytes.now ≡ length.number ∷ length.rest.now)) }
{
    if bytes.is_empty() {
        return None;
    }
    let number = bytes[0] as usize;
    if number < 128 {
        return None;
    }
    Some(Length {
        number,
        rest: &bytes[1..],
    })
}

// A length from 256 to 65,535.
fn in_two_bytes(bytes: &[u8]) -> Option<Length<'_>>
    ensures { MatchOption result
        ((n : ℕ) (rest : List ℕ) → 256 ≤ n → n < 2 ^ 16
        → bytes.now ≡ (n / 256) ∷ (n % 256) ∷ rest → ⊥)
        (λ length. (256 ≤ length.number) × (length.number < 2 ^ 16)
        × (bytes.now ≡ (length.number / 256) ∷ (length.number % 256) ∷ length.rest.now)) }
{
    if bytes.len() < 2 {
        return None;
    }
    let number = 256 * bytes[0] as usize + bytes[1] as usize;
    if number < 256 {
        return None;
    }
    Some(Length {
        number,
        rest: &bytes[2..],
    })
}
