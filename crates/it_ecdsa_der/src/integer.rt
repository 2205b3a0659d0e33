//! One INTEGER.
ghost use Rattle.std.specs.Prelude.{◌≡◌, ℕ, ◌+◌, ◌<◌, ◌≤◌, ◌↔◌, IsTrue, length, slice_index};
ghost use Rattle.std.specs.Prelude.{MatchOption};
ghost use Rattle.it_numbers.specs.Bytes.{big};
ghost use Rattle.it_ecdsa_der.specs.Der.{IsInteger};

const INTEGER: u8 = 2;

/// The bytes of a number, highest first, and the place after its encoding.
#[derive(Drop)]
pub(crate) struct Integer<'a> {
    pub(crate) number: &'a [u8],
    pub(crate) end: usize,
}

/// The INTEGER whose encoding begins at that place. `None` where there is none that is not
/// negative.
pub(crate) fn integer_at(bytes: &[u8], start: usize) -> Option<Integer<'_>>
    requires { start ≤ length bytes.now }
    ensures { MatchOption result
        ((end n : ℕ) → IsInteger bytes.now start end n → ⊥)
        (λ integer. IsInteger bytes.now start integer.end (big integer.number.now)) }
{
    if bytes.len() - start < 3 {
        return None;
    }
    if bytes[start] != INTEGER {
        return None;
    }
    let long = bytes[start + 1] as usize;
    if long == 0 {
        return None;
    }
    if long >= 128 {
        return None;
    }
    if bytes.len() - start - 2 < long {
        return None;
    }
    if bytes[start + 2] >= 128 {
        return None;
    }
    if is_padded(bytes, start + 2, long) {
        return None;
    }
    let end = start + 2 + long;
    Some(Integer {
        number: &bytes[start + 2..end],
        end,
    })
}

// Whether the first byte is 0 and not needed, since the highest bit of the second is clear.
fn is_padded(bytes: &[u8], start: usize, long: usize) -> bool
    requires some { 0 < long }
    requires inside { start + long ≤ length bytes.now }
    ensures { IsTrue result ↔ ((1 < long) × (slice_index bytes.now start ≡ 0)
        × (slice_index bytes.now (start + 1) < 128)) }
{
    if long == 1 {
        return false;
    }
    bytes[start] == 0 && bytes[start + 1] < 128
}
