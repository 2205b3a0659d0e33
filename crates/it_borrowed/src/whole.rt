//! Whole numbers of a document.
ghost use Rattle.std.specs.Prelude.{◌≡◌, false, option_and_then, true};
ghost use Rattle.serde_json.specs.Find.{as_number, as_u64};
ghost use Rattle.it_borrowed.specs.Tree.{as_data, number_in};
ghost use Rattle.it_borrowed.specs.inside.Whole.{whole_from, whole_in};

use crate::numbers::has_minus;
use fast_float::Numeral;
use json::Value;

/// A number, as far as it is a whole one of 64 bits.
#[derive(Clone, Copy)]
pub(crate) enum Whole {
    /// A whole number from 0.
    Unsigned(u64),
    /// A whole number below 0.
    Negative(i64),
    /// Any other number.
    Other,
}

/// The number that a value is, if it is a whole one from 0 that fits 64 bits. Takes no memory.
pub fn unsigned_of(value: &Value<'_>) -> Option<u64>
    ensures { result ≡ option_and_then as_u64 (as_number (as_data value.now)) }
{
    match value {
        Value::Number(text) => unsigned_in(text),
        Value::Null | Value::Bool(_) | Value::String(_) | Value::Array(_) | Value::Object(_) =>
            None,
    }
}

fn unsigned_in(text: &str) -> Option<u64>
    ensures { result ≡ as_u64 (number_in text.now) }
{
    match whole_of(text) {
        Whole::Unsigned(number) => Some(number),
        Whole::Negative(_) | Whole::Other => None,
    }
}

/// The number that a text writes. Takes no memory.
pub(crate) fn whole_of(text: &str) -> Whole
    ensures { result ≡ whole_in (number_in text.now) }
{
    let bytes = text.as_bytes();
    if has_minus(bytes) {
        negative_from(&Numeral::scan(&bytes[1..]))
    } else {
        unsigned_from(&Numeral::scan(bytes))
    }
}

fn unsigned_from(numeral: &Numeral<'_>) -> Whole
    ensures { result ≡ whole_from false numeral.now }
{
    match numeral.to_u64() {
        Some(number) => Whole::Unsigned(number),
        None => Whole::Other,
    }
}

fn negative_from(numeral: &Numeral<'_>) -> Whole
    ensures { result ≡ whole_from true numeral.now }
{
    match numeral.to_i64(true) {
        Some(number) if number < 0 => Whole::Negative(number),
        Some(_) | None => Whole::Other,
    }
}
