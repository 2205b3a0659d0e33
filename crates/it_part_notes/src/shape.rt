//! What a value is that is no object.
ghost use Rattle.std.specs.Prelude.{IfSome};
ghost use Rattle.it_borrowed.specs.Tree.{as_data};
ghost use Rattle.it_part_notes.specs.PartNotes.{IsShape};

use json::Value;

/// What a JSON value is that is no object, and not true, false or null.
#[derive(Clone, Copy, Debug, Drop, PartialEq, Eq)]
pub enum Shape {
    /// A list.
    List,
    /// A text.
    Text,
    /// A number.
    Number,
}

/// Whether a value is a list, a text or a number. Takes no memory.
pub(crate) fn shape_of(value: &Value<'_>) -> Option<Shape>
    ensures { IfSome result (IsShape (as_data value.now)) }
{
    match value {
        Value::Array(_) => Some(Shape::List),
        Value::String(_) => Some(Shape::Text),
        Value::Number(_) => Some(Shape::Number),
        Value::Null | Value::Bool(_) | Value::Object(_) => None,
    }
}
