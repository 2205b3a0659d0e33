//! The index of a ring: from ids to places, and from keys to the first place that has them.
ghost use Rattle.std.specs.Prelude.{◌≡◌, ◌≤◌, IfOk, IsSome, MatchOption, length};
ghost use Rattle.std.specs.List.{IsDistinct};
ghost use Rattle.std.specs.Str.{bytes_eq};
ghost use Rattle.it_dsse.specs.Ring.{ids_of};
ghost use Rattle.it_dsse.specs.inside.RingIndex.{PlacesIds, PlacesKeys};

use crate::mac::block;
use crate::ring_entry::RingEntry;
use std::alloc::{AllocError, Global};
use std::collections::BTreeMap;

/// The place of each id, or `None` where an id occurs twice.
pub(crate) fn places_of_ids(
    alloc: Global,
    entries: &[RingEntry],
) -> Result<Option<BTreeMap<String, u32>>, AllocError>
    requires { length entries.now ≤ 65536 }
    ensures { IfOk result (λ found. MatchOption found
        (¬ IsDistinct bytes_eq (ids_of entries.now))
        (λ places. IsDistinct bytes_eq (ids_of entries.now) × PlacesIds entries.now places)) }
{
    let mut places = BTreeMap::new(alloc);
    for (place, entry) in entries.iter().enumerate() {
        let id = String::from_str(alloc, entry.id.as_str())?;
        let before = places.insert(id, place as u32)?;
        if before.is_some() {
            return Ok(None);
        }
    }
    Ok(Some(places))
}

/// The first place of each key.
pub(crate) fn places_of_keys(
    alloc: Global,
    entries: &[RingEntry],
) -> Result<BTreeMap<[u8; 64], u32>, AllocError>
    requires { length entries.now ≤ 65536 }
    ensures { IfOk result (PlacesKeys entries.now) }
{
    let mut places = BTreeMap::new(alloc);
    for (place, entry) in entries.iter().enumerate() {
        let key = block(entry.secret.as_slice());
        if !places.contains_key(&key) {
            places.insert(key, place as u32)?;
        }
    }
    Ok(places)
}
