//! The body of a set.
use crate::ranges::{Range, is_in_ranges, ranges_of};
use std::alloc::{AllocError, Global};
use std::marker::Model;

/// What is between the brackets of a set, after its negation.
#[derive(Drop)]
pub struct Body {
    characters: Vec<char>,
    /// The ranges of the characters, in the order in which they are searched.
    ranges: Vec<Range>,
}

impl Model for Body {
    ghost use Rattle.std.specs.Prelude.{List, ℕ};
    ghost use Rattle.it_glob.specs.inside.Ranges.{AreSearchable};

    ghost Value = { List ℕ };

    ghost view = { λ b. b.characters.items };

    ghost invariant = { λ b. AreSearchable b.characters.items b.ranges.items };
}

impl Body {
    ghost use Rattle.std.specs.Prelude.{◌≡◌, IfOk};
    ghost use Rattle.it_glob.specs.inside.Ranges.{is_in_some, written_ranges};

    /// The body made of these characters. The only error is that memory was refused.
    pub fn new(alloc: Global, characters: Vec<char>) -> Result<Body, AllocError>
        ensures { IfOk result (λ body. body ≡ characters.items) }
    {
        let ranges = ranges_of(alloc, characters.as_slice())?;
        Ok(Body { characters, ranges })
    }

    /// Whether a character is in the body. Takes time in the order of log n for n ranges.
    pub fn has(&self, character: char) -> bool
        ensures { result ≡ is_in_some (written_ranges self.now) character }
    {
        is_in_ranges(self.ranges.as_slice(), character)
    }
}
