//! Hashes in documents.
ghost use Rattle.std.specs.Prelude.{◌≡◌, IfOk, length};
ghost use Rattle.json.specs.Value.{items_view};
ghost use Rattle.it_borrowed.specs.Tree.{as_data, data_of_items};
ghost use Rattle.it_base.specs.Finds.{Finds};
ghost use Rattle.it_base.specs.Parts.{IsPart};
ghost use Rattle.it_base.specs.Sequence.{AreEach, IsList};
ghost use Rattle.it_log_entry.specs.InclusionProof.{IsHash};

use it_base::base64_text::decode_base64;
use it_base::sequence::Sequence;
use it_borrowed::document::member;
use it_borrowed::items::items_of;
use it_borrowed::text::text_of;
use json::Value;
use std::alloc::{AllocError, Global};

/// The hash in the member of this name; `None` where it is missing or no hash.
pub(crate) fn hash_part(
    alloc: Global,
    value: &Value<'_>,
    name: &str,
) -> Result<Option<[u8; 32]>, AllocError>
    ensures { IfOk result (Finds (IsPart IsHash name.now (as_data value.now))) }
{
    match member(value, name) {
        None => Ok(None),
        Some(found) => hash_in(alloc, found),
    }
}

/// The hashes of a list.
pub(crate) fn hashes_in(
    alloc: Global,
    value: &Value<'_>,
) -> Result<Option<Sequence<[u8; 32]>>, AllocError>
    ensures { IfOk result (Finds (IsList IsHash (as_data value.now))) }
{
    match items_of(value) {
        None => Ok(None),
        Some(items) => read_hashes(alloc, items),
    }
}

fn read_hashes(
    alloc: Global,
    items: &Vec<Value<'_>>,
) -> Result<Option<Sequence<[u8; 32]>>, AllocError>
    ensures { IfOk result (Finds (AreEach IsHash (data_of_items (items_view items.now.items)))) }
{
    let mut hashes = Vec::new(alloc);
    for item in items {
        let Some(hash) = hash_in(alloc, item)? else {
            return Ok(None);
        };
        hashes.push(hash)?;
    }
    Ok(Some(Sequence::from(hashes)))
}

fn hash_in(alloc: Global, value: &Value<'_>) -> Result<Option<[u8; 32]>, AllocError>
    ensures { IfOk result (Finds (IsHash (as_data value.now))) }
{
    let Some(text) = text_of(value) else {
        return Ok(None);
    };
    let Some(bytes) = decode_base64(alloc, text.as_bytes())? else {
        return Ok(None);
    };
    Ok(array_of(bytes.as_slice()))
}

/// The bytes as an array, where they are 32.
fn array_of(bytes: &[u8]) -> Option<[u8; 32]>
    ensures { Finds (λ array. (bytes.now ≡ array) × (length array ≡ 32)) result }
{
    if bytes.len() != 32 {
        return None;
    }
    let mut array = [0; 32];
    array.copy_from_slice(bytes);
    Some(array)
}
