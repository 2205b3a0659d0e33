//! Bytes as hexadecimal digits (RFC 4648 section 8, either case).
//!
//! `hex` branches for each digit on whether it is a letter, which no processor can foresee in a
//! digest. Links are full of them, so here each digit is looked up.
ghost use Rattle.std.specs.Prelude.{◌≡◌, true};
ghost use Rattle.std.specs.Result.{result_ok};
ghost use Rattle.hex.specs.Hex.{decode_sized, pair_value};
ghost use Rattle.it_digest.specs.inside.DigitNumbers.{are_numbers, number};

/// The bytes of a text of two digits for each, where it has exactly so many.
pub(crate) fn bytes_of<const N: usize>(text: &str) -> Option<[u8; N]>
    ensures { result ≡ result_ok (decode_sized text.now N) }
{
    let digits = text.as_bytes();
    if digits.len() % 2 != 0 || digits.len() / 2 != N {
        return None;
    }
    let mut bytes = [0; N];
    for place in 0..N {
        bytes[place] = byte_of(digits[2 * place], digits[2 * place + 1])?;
    }
    Some(bytes)
}

/// The byte of two digits.
#[inline(always)]
fn byte_of(high: u8, low: u8) -> Option<u8>
    ensures { result ≡ result_ok (pair_value high low 0) }
{
    let high = number_of(high);
    let low = number_of(low);
    if high > 15 || low > 15 {
        return None;
    }
    Some(high * 16 + low)
}

/// The number that a digit stands for, or 16 where it is none.
#[inline(always)]
fn number_of(digit: u8) -> u8
    ensures { result ≡ number digit }
{
    found_in(&NUMBERS, digit)
}

/// The number that a table has for a digit.
#[inline(always)]
fn found_in(numbers: &[u8; 256], digit: u8) -> u8
    requires { are_numbers numbers.now 0 ≡ true }
    ensures { result ≡ number digit }
{
    numbers[digit as usize]
}

/// The number that each byte stands for as a digit, or 16 where it is none.
const NUMBERS: [u8; 256] = [
    16, 16, 16, 16, 16, 16, 16, 16, 16, 16, 16, 16, 16, 16, 16, 16, 16, 16, 16, 16, 16, 16, 16, 16,
    16, 16, 16, 16, 16, 16, 16, 16, 16, 16, 16, 16, 16, 16, 16, 16, 16, 16, 16, 16, 16, 16, 16, 16,
    0, 1, 2, 3, 4, 5, 6, 7, 8, 9, 16, 16, 16, 16, 16, 16, 16, 10, 11, 12, 13, 14, 15, 16, 16, 16,
    16, 16, 16, 16, 16, 16, 16, 16, 16, 16, 16, 16, 16, 16, 16, 16, 16, 16, 16, 16, 16, 16, 16, 10,
    11, 12, 13, 14, 15, 16, 16, 16, 16, 16, 16, 16, 16, 16, 16, 16, 16, 16, 16, 16, 16, 16, 16, 16,
    16, 16, 16, 16, 16, 16, 16, 16, 16, 16, 16, 16, 16, 16, 16, 16, 16, 16, 16, 16, 16, 16, 16, 16,
    16, 16, 16, 16, 16, 16, 16, 16, 16, 16, 16, 16, 16, 16, 16, 16, 16, 16, 16, 16, 16, 16, 16, 16,
    16, 16, 16, 16, 16, 16, 16, 16, 16, 16, 16, 16, 16, 16, 16, 16, 16, 16, 16, 16, 16, 16, 16, 16,
    16, 16, 16, 16, 16, 16, 16, 16, 16, 16, 16, 16, 16, 16, 16, 16, 16, 16, 16, 16, 16, 16, 16, 16,
    16, 16, 16, 16, 16, 16, 16, 16, 16, 16, 16, 16, 16, 16, 16, 16, 16, 16, 16, 16, 16, 16, 16, 16,
    16, 16, 16, 16, 16, 16, 16, 16, 16, 16, 16, 16, 16, 16,
];
