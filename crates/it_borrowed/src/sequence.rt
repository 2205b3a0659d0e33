//! Lists of values, read from the lists of a document.
ghost use Rattle.std.specs.Prelude.{IfOk};
ghost use Rattle.json.specs.Value.{items_view};
ghost use Rattle.it_base.specs.Finds.{Finds};
ghost use Rattle.it_base.specs.Sequence.{AreEach, IsList};
ghost use Rattle.it_borrowed.specs.Tree.{data_of_items};

use crate::items::items_of;
use crate::parts::FromBorrowed;
use it_base::sequence::Sequence;
use json::Value;
use std::alloc::{AllocError, Global};

impl<T: FromBorrowed> FromBorrowed for Sequence<T> {
    ghost is_of = { IsList T.is_of };

    /// The values of a JSON list's items, where the part is a list and each item is such a value.
    fn from_borrowed(alloc: Global, value: &Value<'_>) -> Result<Option<Sequence<T>>, AllocError> {
        match items_of(value) {
            None => Ok(None),
            Some(items) => read_each(alloc, items),
        }
    }
}

fn read_each<T: FromBorrowed>(
    alloc: Global,
    items: &Vec<Value<'_>>,
) -> Result<Option<Sequence<T>>, AllocError>
    ensures { IfOk result (Finds (AreEach T.is_of (data_of_items (items_view items.now.items)))) }
{
    let mut values = Vec::new(alloc);
    for item in items {
        let Some(value) = T::from_borrowed(alloc, item)? else {
            return Ok(None);
        };
        values.push(value)?;
    }
    Ok(Some(Sequence::from(values)))
}
