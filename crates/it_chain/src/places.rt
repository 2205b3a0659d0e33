//! Places in a list, under names.
ghost use Rattle.std.specs.Prelude.{◌≡◌, List, ℕ, [], OnOk, string_bytes};
ghost use Rattle.it_chain.specs.inside.Places.{IsAdded, IsAddedOnce, is_last, places_under};

use std::alloc::{AllocError, Global};
use std::collections::BTreeMap;

/// The places of things in a list, under the names that they have.
#[derive(Drop)]
pub(crate) struct Places {
    by_name: BTreeMap<String, Vec<usize>>,
}

impl Places {
    /// No places. Takes no memory.
    pub fn new(alloc: Global) -> Places
        ensures { (name : List ℕ) → places_under result name ≡ [] }
    {
        Places {
            by_name: BTreeMap::new(alloc),
        }
    }

    /// The places under a name, in the order in which they were added.
    pub fn under(&self, name: &str) -> &[usize]
        ensures { result.now ≡ places_under self.now name.now }
    {
        match self.by_name.get(name) {
            Some(places) => places.as_slice(),
            None => &[],
        }
    }

    /// Adds a place under a name.
    pub fn add(&mut self, name: String, place: usize) -> Result<(), AllocError>
        ensures { OnOk result (IsAdded (string_bytes name) place self.old self.new) }
    {
        self.by_name.entry(name)?.or_default().push(place)?;
        Ok(())
    }

    /// Adds a place under a name, unless it was the last to be added there.
    pub fn add_once(&mut self, alloc: Global, name: &str, place: usize) -> Result<(), AllocError>
        ensures { OnOk result (IsAddedOnce name.now place self.old self.new) }
    {
        if is_last_of(place, self.under(name)) {
            return Ok(());
        }
        self.add(String::from_str(alloc, name)?, place)
    }
}

/// Whether a place is the last of some.
fn is_last_of(place: usize, places: &[usize]) -> bool
    ensures { result ≡ is_last place places.now }
{
    match places.last() {
        Some(last) => place == *last,
        None => false,
    }
}
