//! A list of values, which contracts see as a plain list.
ghost use Rattle.std.specs.Prelude.{◌≡◌, List, IfOk};
ghost use Rattle.serde_json.specs.View.{view, items_view};
ghost use Rattle.it_base.specs.Finds.{Finds};
ghost use Rattle.it_base.specs.Sequence.{AreEach, IsList};

use crate::parts::FromDocument;
use serde_json::Value;
use std::alloc::{AllocError, Global};
use std::marker::Model;

/// An owned list of values. A contract sees the list of the values, and nothing else.
#[derive(Drop)]
pub struct Sequence<T> {
    items: Vec<T>,
}

impl<T> Model for Sequence<T> {
    ghost Value = { List T };

    ghost view = { λ s. s.items.items };
}

impl<T> From<Vec<T>> for Sequence<T> {
    ghost from_gives = { λ v s. s ≡ v.items };

    /// The values of a vector. Takes no memory.
    fn from(items: Vec<T>) -> Sequence<T> {
        Sequence { items }
    }
}

impl<T> Sequence<T> {
    /// Lends the values. Takes no memory.
    pub fn as_slice(&self) -> &[T]
        ensures { result.now ≡ self.now }
    {
        self.items.as_slice()
    }

    /// The values as a vector. Takes no memory.
    pub fn into_vec(self) -> Vec<T>
        ensures { result.items ≡ self }
    {
        let Sequence { items } = self;
        items
    }
}

impl<T: FromDocument> FromDocument for Sequence<T> {
    ghost is_of = { IsList T.is_of };

    /// The values of a JSON list's items, where the part is a list and each item is such a value.
    fn from_document(alloc: Global, value: &Value) -> Result<Option<Sequence<T>>, AllocError> {
        match value.as_array() {
            None => Ok(None),
            Some(items) => read_each(alloc, items),
        }
    }
}

fn read_each<T: FromDocument>(
    alloc: Global,
    items: &Vec<Value>,
) -> Result<Option<Sequence<T>>, AllocError>
    ensures { IfOk result (Finds (AreEach T.is_of (items_view items.now.items))) }
{
    let mut values = Vec::new(alloc);
    for item in items {
        let Some(value) = T::from_document(alloc, item)? else {
            return Ok(None);
        };
        values.push(value)?;
    }
    Ok(Some(Sequence::from(values)))
}
