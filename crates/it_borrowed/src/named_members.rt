//! The members of an object, in the order of their names.
ghost use Rattle.std.specs.Prelude.{◌≡◌, IfOk, option_map};
ghost use Rattle.json.specs.Value.{members_view};
ghost use Rattle.serde_json.specs.Data.{no_members};
ghost use Rattle.serde_json.specs.Find.{as_object};
ghost use Rattle.it_borrowed.specs.Tree.{as_data, data_of_members};
ghost use Rattle.it_borrowed.specs.NamedMembers.{members_in};

use json::Value;
use std::alloc::{AllocError, Global};
use std::collections::BTreeMap;

/// The members of a value that is an object, under their names: of two members of one name the
/// last counts. `None` where the value is no object.
///
/// # Errors
///
/// `AllocError` where memory was refused.
pub fn named_members<'v, 't>(
    alloc: Global,
    value: &'v Value<'t>,
) -> Result<Option<BTreeMap<&'t str, &'v Value<'t>>>, AllocError>
    ensures { IfOk result (λ found.
        option_map (λ named. members_in named.entries) found ≡ as_object (as_data value.now)) }
{
    match value {
        Value::Object(members) => Ok(Some(under_names(alloc, members)?)),
        Value::Null | Value::Bool(_) | Value::Number(_) | Value::String(_) | Value::Array(_) => Ok(
            None,
        ),
    }
}

fn under_names<'v, 't>(
    alloc: Global,
    members: &'v Vec<(&'t str, Value<'t>)>,
) -> Result<BTreeMap<&'t str, &'v Value<'t>>, AllocError>
    ensures { IfOk result (λ named. members_in named.entries
        ≡ data_of_members (members_view members.now.items) no_members) }
{
    let mut named = BTreeMap::new(alloc);
    for member in members {
        named.insert(member.0, &member.1)?;
    }
    Ok(named)
}
