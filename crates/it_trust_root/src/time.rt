//! Times.
ghost use Rattle.std.specs.Prelude.{◌≡◌, ◌≤◌, ◌++◌, MatchOption, ℕ, List, codes, length};
ghost use Rattle.std.specs.Str.Parse.{AllDigits, digits_value};
ghost use Rattle.it_borrowed.specs.Tree.{as_data};
ghost use Rattle.it_base.specs.Finds.{Finds};
ghost use Rattle.it_docs.specs.Moment.{MomentOf};
ghost use Rattle.it_trust_root.specs.Time.{AreFractionDigits, IsFraction, IsTime, TimeOf};
ghost use Rattle.it_trust_root.specs.Time.{nine_digits};

use it_borrowed::text::text_of;
use it_docs::moment::read_moment;
use json::Value;
use std::str;

/// Nanoseconds in a second.
const NANOSECONDS: i128 = 1_000_000_000;

/// The time that a part of a document is.
pub(crate) fn time_in(value: &Value<'_>) -> Option<i128>
    ensures { Finds (IsTime (as_data value.now)) result }
{
    time_of(text_of(value)?.as_bytes())
}

/// The time that a text is: `YYYY-MM-DDThh:mm:ss`, a fraction or none, and `Z`.
fn time_of(text: &[u8]) -> Option<i128>
    ensures { Finds (TimeOf text.now) result }
{
    let (to_second, rest) = text.split_first_chunk::<19>()?;
    let fraction = before_zone(rest)?;
    let moment = moment_of(to_second)?;
    let nanoseconds = fraction_of(fraction)?;
    Some(NANOSECONDS * i128::from(moment) + i128::from(nanoseconds))
}

/// What stands before the `Z` at the end.
fn before_zone(rest: &[u8]) -> Option<&[u8]>
    ensures { MatchOption result ((before : List ℕ) → ¬ (rest.now ≡ before ++ codes "Z"))
        (λ before. rest.now ≡ before.now ++ codes "Z") }
{
    let (last, before) = rest.split_last()?;
    if *last == b'Z' { Some(before) } else { None }
}

/// The moment at a second, in seconds.
fn moment_of(to_second: &[u8; 19]) -> Option<i64>
    ensures { Finds (MomentOf (to_second.now ++ codes "Z")) result }
{
    let text = with_zone(to_second);
    let Ok(text) = str::from_utf8(&text) else {
        return None;
    };
    read_moment(text).ok()
}

fn with_zone(to_second: &[u8; 19]) -> [u8; 20]
    ensures { result ≡ to_second.now ++ codes "Z" }
{
    let mut text = [b'Z'; 20];
    text[..19].copy_from_slice(to_second.as_slice());
    text
}

/// The nanoseconds of a fraction of a second.
fn fraction_of(fraction: &[u8]) -> Option<u32>
    ensures { Finds (IsFraction fraction.now) result }
{
    match fraction.split_first() {
        None => Some(0),
        Some((mark, digits)) if *mark == b'.' => nanoseconds_of(digits),
        Some(_) => None,
    }
}

fn nanoseconds_of(digits: &[u8]) -> Option<u32>
    ensures { Finds (AreFractionDigits digits.now) result }
{
    let count = digits.len();
    if count == 0 || count > 9 {
        return None;
    }
    number_of(&with_zeros(digits))
}

fn with_zeros(digits: &[u8]) -> [u8; 9]
    requires { length digits.now ≤ 9 }
    ensures { result ≡ nine_digits digits.now }
{
    let mut text = [b'0'; 9];
    text[..digits.len()].copy_from_slice(digits);
    text
}

/// The number that nine digits are.
fn number_of(digits: &[u8; 9]) -> Option<u32>
    ensures { MatchOption result (¬ AllDigits 10 digits.now)
        (λ number. AllDigits 10 digits.now × (number ≡ digits_value 10 digits.now)) }
{
    let Ok(text) = str::from_utf8(digits) else {
        return None;
    };
    if !digits[0].is_ascii_digit() {
        return None;
    }
    text.parse::<u32>().ok()
}
