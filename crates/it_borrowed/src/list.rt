//! Lists in a document; a missing one is empty.
ghost use Rattle.std.specs.Prelude.{[], IfOk, MatchResult};
ghost use Rattle.json.specs.Value.{items_view};
ghost use Rattle.it_base.specs.Finds.{Finds};
ghost use Rattle.it_base.specs.List.{IsListFault};
ghost use Rattle.it_base.specs.Parts.{IsPartOr};
ghost use Rattle.it_base.specs.Sequence.{AreEach, IsList};
ghost use Rattle.it_base.specs.inside.ItemFaults.{IsItemFault};
ghost use Rattle.it_borrowed.specs.Tree.{as_data, data_of_items};

use crate::document::member;
use crate::items::items_of;
use crate::parts::{FromBorrowed, part_or};
use it_base::list::ListFault;
use it_base::sequence::Sequence;
use json::Value;
use std::alloc::{AllocError, Global};

/// The values of a list, empty where the member is missing. `None` where the member is not a list
/// of such values.
///
/// # Errors
///
/// `AllocError` where memory was refused.
pub fn list_or_empty<T: FromBorrowed>(
    alloc: Global,
    value: &Value<'_>,
    name: &str,
) -> Result<Option<Sequence<T>>, AllocError>
    ensures { IfOk result (Finds (IsPartOr (IsList T.is_of) [] name.now (as_data value.now))) }
{
    part_or(alloc, value, name, Sequence::from(Vec::new(alloc)))
}

/// The values of a list, empty where the member is missing.
///
/// # Errors
///
/// `NoList` where the member is not a list, `NoItem` with the index of the first item that is not
/// such a value, and `OutOfMemory` where memory was refused.
pub fn numbered_list<T: FromBorrowed>(
    alloc: Global,
    value: &Value<'_>,
    name: &str,
) -> Result<Sequence<T>, ListFault>
    ensures { MatchResult result (IsPartOr (IsList T.is_of) [] name.now (as_data value.now))
        (IsListFault T.is_of name.now (as_data value.now)) }
{
    match member(value, name) {
        None => Ok(Sequence::from(Vec::new(alloc))),
        Some(found) => match items_of(found) {
            None => Err(ListFault::NoList),
            Some(items) => read_numbered(alloc, items),
        },
    }
}

fn read_numbered<T: FromBorrowed>(
    alloc: Global,
    items: &Vec<Value<'_>>,
) -> Result<Sequence<T>, ListFault>
    ensures { MatchResult result (AreEach T.is_of (data_of_items (items_view items.now.items)))
        (IsItemFault T.is_of (data_of_items (items_view items.now.items))) }
{
    let mut values = Vec::new(alloc);
    for (place, item) in items.iter().enumerate() {
        let Some(value) = T::from_borrowed(alloc, item)? else {
            return Err(ListFault::NoItem(place));
        };
        values.push(value)?;
    }
    Ok(Sequence::from(values))
}
