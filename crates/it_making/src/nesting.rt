//! How deep JSON values nest.
ghost use Rattle.std.specs.Prelude.{◌≤◌, ◌↔◌, IsTrue};
ghost use Rattle.serde_json.specs.Data.{depth, items_depth, members_depth};
ghost use Rattle.serde_json.specs.View.{items_view, members_view, view};

use serde_json::{Map, Value};

/// Whether lists and objects nest at most so many levels deep. Takes no memory.
#[cycle(nests)]
pub(crate) fn nests_within(value: &Value, levels: u8) -> bool
    ensures { IsTrue result ↔ (depth (view value.now) ≤ levels) }
{
    match value {
        Value::Null => true,
        Value::Bool(_) => true,
        Value::Number(_) => true,
        Value::String(_) => true,
        Value::Array(items) => levels > 0 && items_nest_within(items, levels - 1),
        Value::Object(members) => levels > 0 && members_nest_within(members, levels - 1),
    }
}

#[cycle(nests)]
fn items_nest_within(items: &Vec<Value>, levels: u8) -> bool
    ensures { IsTrue result ↔ (items_depth (items_view items.now.items) ≤ levels) }
{
    for item in items {
        if !nests_within(item, levels) {
            return false;
        }
    }
    true
}

#[cycle(nests)]
fn members_nest_within(members: &Map<String, Value>, levels: u8) -> bool
    ensures { IsTrue result ↔ (members_depth (members_view members.now.entries) ≤ levels) }
{
    for (_name, member) in members.iter() {
        if !nests_within(member, levels) {
            return false;
        }
    }
    true
}
