//! Places in a list, under texts.
ghost use Rattle.std.specs.Prelude.{◌≡◌, ◌⊎◌, ◌↔◌, List, ℕ, Contains, OnOk};
ghost use Rattle.it_places.specs.Places.{IsPut, IsUnder};

use std::alloc::{AllocError, Global};
use std::collections::BTreeMap;

/// The places of things in a list, under texts that each of them has. One text may have many
/// places, and one place many texts.
#[derive(Drop)]
pub struct Places<'a> {
    by_text: BTreeMap<&'a [u8], Vec<usize>>,
}

impl<'a> Places<'a> {
    /// No places. Takes no memory.
    pub fn new(alloc: Global) -> Places<'a>
        ensures { (text : List ℕ) (place : ℕ) → ¬ IsUnder result text place }
    {
        Places {
            by_text: BTreeMap::new(alloc),
        }
    }

    /// Puts a place under a text, after those that are there.
    ///
    /// # Errors
    ///
    /// `AllocError` where memory was refused.
    pub fn put(&mut self, alloc: Global, text: &'a [u8], place: usize) -> Result<(), AllocError>
        ensures { OnOk result (IsPut text.now place self.old self.new) }
    {
        self.by_text.entry(text)?.or_default().push(place)?;
        Ok(())
    }

    /// The places under a text, in the order in which they were put there. Takes no memory.
    pub fn under(&self, text: &[u8]) -> &[usize]
        ensures { (place : ℕ) → Contains result.now place ↔ IsUnder self.now text.now place }
    {
        match self.by_text.get(text) {
            Some(places) => places.as_slice(),
            None => &[],
        }
    }
}
