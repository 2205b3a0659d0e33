//! Lists in a document; a missing one is empty.
ghost use Rattle.std.specs.Prelude.{◌≡◌, [], MatchResult};
ghost use Rattle.serde_json.specs.View.{view, items_view};
ghost use Rattle.it_base.specs.Parts.{IsPartOr};
ghost use Rattle.it_base.specs.Sequence.{AreEach, IsList};
ghost use Rattle.it_base.specs.declared.list.ListFault.TheVariants.{OutOfMemory};
ghost use Rattle.it_base.specs.List.{IsListFault};
ghost use Rattle.it_base.specs.inside.ItemFaults.{IsItemFault};

use crate::document::member;
use crate::parts::FromDocument;
use crate::sequence::Sequence;
use serde_json::Value;
use std::alloc::{AllocError, AllocFailed, Global};

/// Why a list was not read.
#[derive(Clone, Copy, Debug, PartialEq, Eq)]
pub enum ListFault {
    /// The member is not a list.
    NoList,
    /// The item at this index, from 0, is the first that is not a value of the wanted kind.
    NoItem(usize),
    /// Memory was refused.
    OutOfMemory,
}

impl From<AllocError> for ListFault {
    ghost from_gives = { λ _ e. e ≡ OutOfMemory };

    fn from(_e: AllocError) -> ListFault {
        ListFault::OutOfMemory
    }
}

impl<T: Drop> From<AllocFailed<T>> for ListFault {
    ghost from_gives = { λ _ e. e ≡ OutOfMemory };

    fn from(_e: AllocFailed<T>) -> ListFault {
        ListFault::OutOfMemory
    }
}

/// The values of a list, empty where the member is missing.
///
/// # Errors
///
/// `NoList` where the member is not a list, `NoItem` with the index of the first item that is not
/// such a value, and `OutOfMemory` where memory was refused.
pub fn numbered_list<T: FromDocument>(
    alloc: Global,
    value: &Value,
    name: &str,
) -> Result<Sequence<T>, ListFault>
    ensures { MatchResult result (IsPartOr (IsList T.is_of) [] name.now (view value.now))
        (IsListFault T.is_of name.now (view value.now)) }
{
    match member(value, name) {
        None => Ok(Sequence::from(Vec::new(alloc))),
        Some(found) => match found.as_array() {
            None => Err(ListFault::NoList),
            Some(items) => read_numbered(alloc, items),
        },
    }
}

fn read_numbered<T: FromDocument>(
    alloc: Global,
    items: &Vec<Value>,
) -> Result<Sequence<T>, ListFault>
    ensures { MatchResult result (AreEach T.is_of (items_view items.now.items))
        (IsItemFault T.is_of (items_view items.now.items)) }
{
    let mut values = Vec::new(alloc);
    for (place, item) in items.iter().enumerate() {
        let Some(value) = T::from_document(alloc, item)? else {
            return Err(ListFault::NoItem(place));
        };
        values.push(value)?;
    }
    Ok(Sequence::from(values))
}
