//! Why bytes are no ring of secrets, for the note that says so.
ghost use Rattle.std.specs.Prelude.{IfOk, IfSome};
ghost use Rattle.serde_json.specs.View.{items_view, view};
ghost use Rattle.it_disk.specs.RingFlaw.{IsEntryFlaw, IsItemsFlaw, IsRingFlaw};

use crate::shown::Shown;
use it_base::document::{member, read_document};
use it_base::hexadecimal_text::hexadecimal_part;
use it_base::parts::part;
use it_base::text::Text;
use serde_json::Value;
use std::alloc::{AllocError, Global};
use std::collections::BTreeSet;
use thiserror::Error;

/// The greatest number of entries that a ring has.
const MOST_ENTRIES: usize = 65536;

/// The first thing that keeps bytes from being a ring.
#[derive(Debug, Drop, Error)]
pub enum RingFlaw {
    /// The bytes are no document.
    #[error("it is no JSON document")]
    NoDocument,
    /// The document is no list.
    #[error("it is no JSON list")]
    NoList,
    /// The list has too many items.
    #[error("it has more than {MOST_ENTRIES} entries")]
    TooMany,
    /// The item at this place, counted from 1, is no entry.
    #[error("entry {place} {flaw}")]
    NoEntry { place: usize, flaw: EntryFlaw },
    /// The entry at this place, counted from 1, has the id of one before it.
    #[error("entry {place} has the id {id}, as one before it")]
    Repeats { place: usize, id: Shown },
    /// None of these was found.
    #[error("it cannot be read as one")]
    Other,
}

/// What keeps an item from being an entry.
#[derive(Clone, Copy, Debug, PartialEq, Eq, Error)]
pub enum EntryFlaw {
    /// It is no object.
    #[error("is no JSON object")]
    NoObject,
    /// It has no member `id` that is a text.
    #[error("has no text \"id\"")]
    NoId,
    /// It has no member `secret` that is a hexadecimal text.
    #[error("has no \"secret\" in hexadecimal digits")]
    NoSecret,
}

/// What keeps the bytes from being a ring. They are read again, only for the note.
pub(crate) fn ring_flaw(alloc: Global, bytes: &[u8]) -> Result<RingFlaw, AllocError>
    ensures { IfOk result (IsRingFlaw bytes.now) }
{
    let Some(document) = read_document(alloc, bytes)? else {
        return Ok(RingFlaw::NoDocument);
    };
    let Some(items) = document.as_array() else {
        return Ok(RingFlaw::NoList);
    };
    items_flaw(alloc, items.as_slice())
}

/// What keeps the items of a list from being the entries of a ring.
fn items_flaw(alloc: Global, items: &[Value]) -> Result<RingFlaw, AllocError>
    ensures { IfOk result (IsItemsFlaw (items_view items.now)) }
{
    if items.len() > MOST_ENTRIES {
        return Ok(RingFlaw::TooMany);
    }
    if let Some(flaw) = first_no_entry(alloc, items)? {
        return Ok(flaw);
    }
    match first_repeat(alloc, items)? {
        Some(flaw) => Ok(flaw),
        None => Ok(RingFlaw::Other),
    }
}

/// The first item that is no entry.
fn first_no_entry(alloc: Global, items: &[Value]) -> Result<Option<RingFlaw>, AllocError>
    ensures { IfOk result (λ found. IfSome found (IsItemsFlaw (items_view items.now))) }
{
    for (place, item) in items.iter().enumerate() {
        if let Some(flaw) = entry_flaw(alloc, item)? {
            let place = place + 1;
            return Ok(Some(RingFlaw::NoEntry { place, flaw }));
        }
    }
    Ok(None)
}

/// What keeps an item from being an entry.
fn entry_flaw(alloc: Global, item: &Value) -> Result<Option<EntryFlaw>, AllocError>
    ensures { IfOk result (λ found. IfSome found (IsEntryFlaw (view item.now))) }
{
    if !item.is_object() {
        return Ok(Some(EntryFlaw::NoObject));
    }
    if part::<Text>(alloc, item, "id")?.is_none() {
        return Ok(Some(EntryFlaw::NoId));
    }
    if hexadecimal_part(alloc, item, "secret")?.is_none() {
        return Ok(Some(EntryFlaw::NoSecret));
    }
    Ok(None)
}

/// The first entry whose id an earlier one has.
fn first_repeat(alloc: Global, entries: &[Value]) -> Result<Option<RingFlaw>, AllocError>
    ensures { IfOk result (λ found. IfSome found (IsItemsFlaw (items_view entries.now))) }
{
    let mut ids = BTreeSet::new(alloc);
    for (place, entry) in entries.iter().enumerate() {
        let id = id_of(alloc, entry)?;
        if ids.contains(id.as_str()) {
            let place = place + 1;
            let id = Shown::of(alloc, id.as_str())?;
            return Ok(Some(RingFlaw::Repeats { place, id }));
        }
        ids.insert(id)?;
    }
    Ok(None)
}

/// The id of an entry, or the empty text where it has none.
fn id_of(alloc: Global, entry: &Value) -> Result<String, AllocError> {
    let id = match member(entry, "id") {
        Some(id) => id.as_str().unwrap_or(""),
        None => "",
    };
    String::from_str(alloc, id)
}
