//! Numbers of a document.
ghost use Rattle.std.specs.Prelude.{◌≡◌, ◌<◌, ◌==◌, IsTrue, is_some, length, slice_index};
ghost use Rattle.std.specs.Prelude.{false, true};
ghost use Rattle.json.specs.Value.{items_view, members_view, value_view};
ghost use Rattle.serde_json.specs.Read.{float_of, number_from, number_of};
ghost use Rattle.it_borrowed.specs.inside.InRange.{in_range, items_in_range, members_in_range};

use fast_float::Numeral;
use json::Value;

/// Whether each number of a tree is within the range of those that a document can have. Takes no
/// memory.
#[cycle(in_range)]
pub(crate) fn has_numbers_in_range(value: &Value<'_>) -> bool
    ensures { result ≡ in_range (value_view value.now) }
{
    match value {
        Value::Null => true,
        Value::Bool(_) => true,
        Value::Number(text) => is_in_range(text),
        Value::String(_) => true,
        Value::Array(items) => items_have_numbers_in_range(items),
        Value::Object(members) => members_have_numbers_in_range(members),
    }
}

#[cycle(in_range)]
fn items_have_numbers_in_range(items: &Vec<Value<'_>>) -> bool
    ensures { result ≡ items_in_range (items_view items.now.items) }
{
    for item in items {
        if !has_numbers_in_range(item) {
            return false;
        }
    }
    true
}

#[cycle(in_range)]
fn members_have_numbers_in_range(members: &Vec<(&str, Value<'_>)>) -> bool
    ensures { result ≡ members_in_range (members_view members.now.items) }
{
    for member in members {
        if !has_numbers_in_range(&member.1) {
            return false;
        }
    }
    true
}

/// Whether the number that a text writes is within the range.
fn is_in_range(text: &str) -> bool
    ensures { result ≡ is_some (number_of text.now) }
{
    let bytes = text.as_bytes();
    if has_minus(bytes) {
        is_negative_in_range(&Numeral::scan(&bytes[1..]))
    } else {
        is_positive_in_range(&Numeral::scan(bytes))
    }
}

pub(crate) fn has_minus(bytes: &[u8]) -> bool
    ensures value { result ≡ (slice_index bytes.now 0 == 45) }
    ensures len { IsTrue result → 0 < length bytes.now }
{
    !bytes.is_empty() && bytes[0] == b'-'
}

fn is_positive_in_range(numeral: &Numeral<'_>) -> bool
    ensures { result ≡ is_some (number_from false numeral.now) }
{
    match numeral.to_u64() {
        Some(_) => true,
        None => is_finite(false, numeral),
    }
}

fn is_negative_in_range(numeral: &Numeral<'_>) -> bool
    ensures { result ≡ is_some (number_from true numeral.now) }
{
    match numeral.to_i64(true) {
        Some(n) if n < 0 => true,
        Some(_) | None => is_finite(true, numeral),
    }
}

/// Whether the nearest number of 64 bits with a point is a finite one.
fn is_finite(negative: bool, numeral: &Numeral<'_>) -> bool
    ensures { result ≡ is_some (float_of negative numeral.now) }
{
    numeral.to_float::<f64>(negative).is_finite()
}
