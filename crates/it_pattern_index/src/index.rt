//! Patterns in an order, looked up by their literal fronts.
ghost use Rattle.std.specs.Prelude.{◌≡◌, IfOk, MatchOption, map};
ghost use Rattle.it_pattern_index.specs.FirstMatch.{IsFirstMatch, NoneMatches};

use crate::earlier::earlier_among;
use crate::fronts::Fronts;
use it_glob::Pattern;
use std::alloc::{AllocError, Global};
use std::marker::Model;

/// Path patterns in an order, of which the first that matches a path is found without asking all:
/// each path that a pattern matches begins with the pattern's literal front, so only the patterns
/// with a front that the path begins with are asked, and a pattern that is its own front only where
/// it is the whole path. A contract sees the patterns' texts.
#[derive(Drop)]
pub struct PatternIndex<'a> {
    patterns: Vec<&'a Pattern>,
    fronts: Fronts<'a>,
}

impl<'a> Model for PatternIndex<'a> {
    ghost use Rattle.std.specs.Prelude.{List, ℕ};
    ghost use Rattle.it_pattern_index.specs.inside.Listed.{AreListed, texts_of};

    ghost Value = { List (List ℕ) };

    ghost view = { λ i. texts_of i.patterns.items };

    ghost invariant = { λ i. AreListed (texts_of i.patterns.items) i.fronts };
}

impl<'a> PatternIndex<'a> {
    /// The index of these patterns, in this order.
    ///
    /// # Errors
    ///
    /// `AllocError` where memory was refused.
    pub fn of(alloc: Global, patterns: Vec<&'a Pattern>) -> Result<PatternIndex<'a>, AllocError>
        ensures { IfOk result (λ i. i ≡ map (λ p. p.now) patterns.entry.items) }
    {
        let mut fronts = Fronts::new(alloc);
        for (place, pattern) in patterns.as_slice().iter().enumerate() {
            fronts.list(alloc, pattern, place)?;
        }
        Ok(PatternIndex { patterns, fronts })
    }

    /// The place of the first of the patterns that matches the whole of a path, counted from 0, or
    /// `None` where none does. Takes no memory.
    pub fn first_match(&self, path: &str) -> Option<usize>
        ensures { MatchOption result (NoneMatches self.now path.now)
            (IsFirstMatch self.now path.now) }
    {
        let patterns = self.patterns.as_slice();
        let itself = self.fronts.under(path.as_bytes(), path.len());
        let mut first = earlier_among(patterns, itself, path, None);
        for len in self.fronts.lengths.as_slice() {
            let places = self.fronts.under(path.as_bytes(), *len);
            first = earlier_among(patterns, places, path, first);
        }
        first
    }
}
