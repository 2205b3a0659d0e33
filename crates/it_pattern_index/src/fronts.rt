//! The places of patterns under their literal fronts.
ghost use Rattle.std.specs.Prelude.{◌≡◌, List, ℕ, Contains, OnOk, length};
ghost use Rattle.it_glob.specs.Pattern.{BeginsWith};
ghost use Rattle.it_pattern_index.specs.inside.Listed.{IsListed, IsMeasured};
ghost use Rattle.it_places.specs.Places.{IsUnder};

use it_glob::Pattern;
use it_places::Places;
use std::alloc::{AllocError, Global};

/// The places of patterns under their literal fronts, and the lengths of the fronts of those that
/// may match more than their own text.
#[derive(Drop)]
pub(crate) struct Fronts<'a> {
    /// The lengths of these fronts in bytes, each once.
    pub(crate) lengths: Vec<usize>,
    /// The places of the patterns, under their fronts.
    pub(crate) places: Places<'a>,
}

impl<'a> Fronts<'a> {
    /// No fronts. Takes no memory.
    pub(crate) fn new(alloc: Global) -> Fronts<'a> {
        Fronts {
            lengths: Vec::new(alloc),
            places: Places::new(alloc),
        }
    }

    /// Lists the place of a pattern under its front.
    pub(crate) fn list(
        &mut self,
        alloc: Global,
        pattern: &'a Pattern,
        place: usize,
    ) -> Result<(), AllocError>
        ensures listed { OnOk result (IsListed self.new pattern.now place) }
        ensures kept { OnOk result ((text : List ℕ) (p : ℕ) → IsListed self.old text p
            → IsListed self.new text p) }
    {
        measure(&mut self.lengths, pattern)?;
        let front = pattern.literal_front().as_bytes();
        self.places.put(alloc, front, place)?;
        Ok(())
    }

    /// The places that are listed under the front of a length that a path begins with.
    pub(crate) fn under(&self, path: &[u8], len: usize) -> &[usize]
        ensures { (front : List ℕ) → BeginsWith path.now front → length front ≡ len
            → (place : ℕ) → IsUnder self.now.places front place → Contains result.now place }
    {
        if path.len() < len {
            return &[];
        }
        self.places.under(&path[..len])
    }
}

/// Puts the length of a pattern's front at the end, unless it is there already, or the pattern is
/// its own front.
fn measure(lengths: &mut Vec<usize>, pattern: &Pattern) -> Result<(), AllocError>
    ensures measured { OnOk result (IsMeasured lengths.new.items pattern.now) }
    ensures kept { OnOk result ((text : List ℕ) → IsMeasured lengths.old.items text
        → IsMeasured lengths.new.items text) }
{
    let front = pattern.literal_front();
    if front == pattern.text() {
        return Ok(());
    }
    put_length(lengths, front.len())?;
    Ok(())
}

/// Puts a length at the end, unless it is there already.
fn put_length(lengths: &mut Vec<usize>, len: usize) -> Result<(), AllocError>
    ensures has { OnOk result (Contains lengths.new.items len) }
    ensures kept { OnOk result ((l : ℕ) → Contains lengths.old.items l
        → Contains lengths.new.items l) }
{
    if !lengths.as_slice().contains(&len) {
        lengths.push(len)?;
    }
    Ok(())
}
