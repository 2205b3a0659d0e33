//! Which sublayouts were listed, so that each is listed once over a folder.
ghost use Rattle.std.specs.Prelude.{◌≡◌, ℕ, List, false, map, not, IfOk, OnOk, string_bytes};
ghost use Rattle.it_sublayouts.specs.inside.Listed.{IsAdded, was_listed};

use std::alloc::{AllocError, Global};
use std::collections::BTreeSet;

/// The sublayouts that were listed: each by the names of the folders, one in another, that its
/// files are in, and by its payload.
#[derive(Drop)]
pub(crate) struct ListedSublayouts {
    places: BTreeSet<(Vec<String>, Vec<u8>)>,
}

impl ListedSublayouts {
    /// No sublayouts. Takes no memory.
    pub fn new(alloc: Global) -> ListedSublayouts
        ensures { (folders : List (List ℕ)) (payload : List ℕ)
            → was_listed result folders payload ≡ false }
    {
        ListedSublayouts {
            places: BTreeSet::new(alloc),
        }
    }

    /// Adds the sublayout in a payload over some folders, and answers whether it is a new one.
    pub fn add(&mut self, folders: Vec<String>, payload: Vec<u8>) -> Result<bool, AllocError>
        ensures is_new { IfOk result (λ is_new.
            is_new ≡ not (was_listed self.old (map string_bytes folders.items) payload.items)) }
        ensures added { OnOk result (IsAdded self.old self.new
            (map string_bytes folders.items) payload.items) }
    {
        let is_new = self.places.insert((folders, payload))?;
        Ok(is_new)
    }
}
