//! Decimal digits in pairs.
ghost use Rattle.std.specs.Prelude.{ℕ, MatchOption};
ghost use Rattle.it_calendar.specs.Digits.{AreTwoDigits};

/// The number that two decimal digits make; `None` where one of the bytes is no digit.
pub fn two_digits(tens: u8, ones: u8) -> Option<u8>
    ensures { MatchOption result ((n : ℕ) → AreTwoDigits tens ones n → ⊥)
        (λ n. AreTwoDigits tens ones n) }
{
    if tens.is_ascii_digit() && ones.is_ascii_digit() {
        Some(10 * (tens - b'0') + (ones - b'0'))
    } else {
        None
    }
}
