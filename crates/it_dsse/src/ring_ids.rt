//! The ids of a ring, in order.
ghost use Rattle.std.specs.Prelude.{◌≡◌, IfOk, OnOk, map, string_bytes};
ghost use Rattle.std.specs.Cmp.Lexicographic.{slice_cmp};
ghost use Rattle.std.specs.List.Sorted.{IsPermutation, IsSorted};
ghost use Rattle.std.specs.Ordering.{nat_cmp};
ghost use Rattle.it_dsse.specs.Ring.{ids_of};

use crate::ring_entry::RingEntry;
use std::alloc::{AllocError, Global};

/// The ids of the entries, in the order of their bytes.
pub(crate) fn sorted_ids(alloc: Global, entries: &[RingEntry]) -> Result<Vec<String>, AllocError>
    ensures same { IfOk result
        (λ ids. IsPermutation (ids_of entries.now) (map string_bytes ids.items)) }
    ensures ordered { IfOk result
        (λ ids. IsSorted (slice_cmp nat_cmp) (map string_bytes ids.items)) }
{
    let mut ids = id_texts(alloc, entries)?;
    sort_texts(&mut ids)?;
    Ok(ids)
}

fn id_texts(alloc: Global, entries: &[RingEntry]) -> Result<Vec<String>, AllocError>
    ensures { IfOk result (λ ids. map string_bytes ids.items ≡ ids_of entries.now) }
{
    let mut ids = Vec::with_capacity(alloc, entries.len())?;
    for entry in entries {
        ids.push(String::from_str(alloc, entry.id.as_str())?)?;
    }
    Ok(ids)
}

fn sort_texts(texts: &mut Vec<String>) -> Result<(), AllocError>
    ensures same { OnOk result
        (IsPermutation (map string_bytes texts.old.items) (map string_bytes texts.new.items)) }
    ensures ordered { OnOk result
        (IsSorted (slice_cmp nat_cmp) (map string_bytes texts.new.items)) }
{
    texts.sort()
}
