//! Maps from texts to values, read from the objects of a document.
ghost use Rattle.std.specs.Prelude.{◌≡◌, IfOk, IfSome, List, ℕ, string_bytes};
ghost use Rattle.std.specs.BTreeMap.{IsFromIterResult};
ghost use Rattle.std.specs.String.{string_cmp};
ghost use Rattle.std.specs.FinMap as finite;
ghost use Rattle.json.specs.Value.{members_view};
ghost use Rattle.serde_json.specs.Data.{no_members};
ghost use Rattle.it_base.specs.Finds.{Finds};
ghost use Rattle.it_base.specs.Table.{AreMembers, IsTable, Stands};
ghost use Rattle.it_borrowed.specs.Tree.{as_data, data_of_members};
ghost use Rattle.it_borrowed.specs.inside.Last.{AreLast, value_at};

use crate::parts::FromBorrowed;
use it_base::table::Table;
use json::Value;
use std::alloc::{AllocError, Global};
use std::collections::BTreeMap;

impl<V: FromBorrowed> FromBorrowed for Table<V> {
    ghost is_of = { IsTable V.is_of };

    /// The values of a JSON object's members, where the part is an object and each member is such a
    /// value. A member whose value is null counts as missing, and of two members of one name the
    /// last counts.
    fn from_borrowed(alloc: Global, value: &Value<'_>) -> Result<Option<Table<V>>, AllocError> {
        match value {
            Value::Object(members) => table_of(alloc, members),
            Value::Null | Value::Bool(_) | Value::Number(_) | Value::String(_) | Value::Array(_) =>
                Ok(None),
        }
    }
}

/// The values of an object's members, where each of those that count is such a value.
fn table_of<'t, V: FromBorrowed>(
    alloc: Global,
    members: &Vec<(&'t str, Value<'t>)>,
) -> Result<Option<Table<V>>, AllocError>
    ensures { IfOk result (Finds (AreMembers V.is_of
        (data_of_members (members_view members.now.items) no_members))) }
{
    match read_each(alloc, members)? {
        Some(table) => Ok(Some(table)),
        None => read_last(alloc, last_members(alloc, members)?),
    }
}

/// The values of the members, where each of them is such a value and none is null; else `None`. A
/// map of all of them has of each name the last.
fn read_each<'t, V: FromBorrowed>(
    alloc: Global,
    members: &Vec<(&'t str, Value<'t>)>,
) -> Result<Option<Table<V>>, AllocError>
    ensures { IfOk result (λ found. IfSome found (AreMembers V.is_of
        (data_of_members (members_view members.now.items) no_members))) }
{
    let mut named = Vec::with_capacity(alloc, members.len())?;
    for member in members {
        if member.1.is_null() {
            return Ok(None);
        }
        let Some(value) = V::from_borrowed(alloc, &member.1)? else {
            return Ok(None);
        };
        named.push((String::from_str(alloc, member.0)?, value))?;
    }
    Ok(Some(Table::from(map_of(alloc, named)?)))
}

/// The last member of each name.
fn last_members<'v, 't>(
    alloc: Global,
    members: &'v Vec<(&'t str, Value<'t>)>,
) -> Result<BTreeMap<String, &'v Value<'t>>, AllocError>
    ensures { IfOk result (AreLast
        (data_of_members (members_view members.now.items) no_members)) }
{
    let mut named = Vec::with_capacity(alloc, members.len())?;
    for member in members {
        named.push(entry_of(alloc, member)?)?;
    }
    map_of(alloc, named)
}

/// A member as an entry of a map.
fn entry_of<'v, 't>(
    alloc: Global,
    member: &'v (&'t str, Value<'t>),
) -> Result<(String, &'v Value<'t>), AllocError>
    ensures { IfOk result
        (λ e. (string_bytes e.0 ≡ member.now.0.now) × (e.1.now ≡ member.now.1)) }
{
    Ok((String::from_str(alloc, member.0)?, &member.1))
}

/// Reads the last members one by one.
fn read_last<V: FromBorrowed>(
    alloc: Global,
    members: BTreeMap<String, &Value<'_>>,
) -> Result<Option<Table<V>>, AllocError>
    ensures { IfOk result (Finds (λ table. (name : List ℕ)
        → Stands V.is_of (value_at members.entry.entries name) (finite.get table name))) }
{
    let mut named = Vec::with_capacity(alloc, members.len())?;
    for (name, member) in members {
        if member.is_null() {
            continue;
        }
        let Some(value) = V::from_borrowed(alloc, member)? else {
            return Ok(None);
        };
        named.push((name, value))?;
    }
    Ok(Some(Table::from(map_of(alloc, named)?)))
}

/// The map from these names to their values.
fn map_of<V: Drop>(
    alloc: Global,
    named: Vec<(String, V)>,
) -> Result<BTreeMap<String, V>, AllocError>
    ensures { IfOk result (IsFromIterResult string_cmp named.items) }
{
    named.into_iter().collect(alloc)
}
