//! The items of a list in a document.
ghost use Rattle.std.specs.Prelude.{◌≡◌, option_map};
ghost use Rattle.json.specs.Value.{items_view};
ghost use Rattle.serde_json.specs.Find.{as_array, at};
ghost use Rattle.it_borrowed.specs.Tree.{as_data, data_of_items};

use json::Value;

/// The items of a value that is a list, in their order; `None` where it is none. Takes no memory.
pub fn items_of<'v, 't>(value: &'v Value<'t>) -> Option<&'v Vec<Value<'t>>>
    ensures { option_map (λ v. data_of_items (items_view v.now.items)) result
        ≡ as_array (as_data value.now) }
{
    match value {
        Value::Array(items) => Some(items),
        Value::Null | Value::Bool(_) | Value::Number(_) | Value::String(_) | Value::Object(_) =>
            None,
    }
}

/// The item of a list at a place, counted from 0; `None` where the value is no list, or its list is
/// not that long. Takes no memory.
pub fn item<'v, 't>(value: &'v Value<'t>, place: usize) -> Option<&'v Value<'t>>
    ensures { option_map (λ v. as_data v.now) result ≡ at place (as_data value.now) }
{
    value.at(place)
}
