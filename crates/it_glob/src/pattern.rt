//! Path patterns.
ghost use Rattle.std.specs.Prelude.{◌≡◌, ◌+◌, ◌*◌, ◌≤◌, IfOk, IsTrue, ◌↔◌, List, ℕ, length};
ghost use Rattle.std.specs.Str.{IsUtf8, chars};
ghost use Rattle.it_glob.specs.Pattern.{items_of, Matches, front_of, plain_count, BeginsWith};

use crate::front::{front_len, front_of_text};
use crate::item::Item;
use crate::match_items::match_items;
use crate::reading::read_items;
use std::alloc::{AllocError, Global};
use std::marker::Model;

/// A path pattern that has been read, by which artifact rules name files (in-toto 1.0, section
/// 4.3.3). A contract sees the bytes of its text, and nothing else.
#[derive(Drop)]
pub struct Pattern {
    text: String,
    items: Vec<Item>,
    /// The length of the text before the first star, any or set item, in bytes.
    front: usize,
}

impl Model for Pattern {
    ghost use Rattle.std.specs.Prelude.{◌≡◌, List, ℕ, length, string_bytes};
    ghost use Rattle.it_glob.specs.Pattern.{items_of, front_of};

    ghost Value = { List ℕ };

    ghost view = { λ p. string_bytes p.text };

    ghost invariant = { λ p. (p.items.items ≡ items_of (string_bytes p.text))
        × (p.front ≡ length (front_of (items_of (string_bytes p.text)))) };
}

impl Pattern {
    /// Reads a pattern's text. Every text is a pattern: outside a set, each character but `*` and
    /// `?` matches itself, and so does a `[` that begins no set. The pattern keeps a copy of the
    /// text. The only error is that memory was refused.
    pub fn read(alloc: Global, text: &str) -> Result<Pattern, AllocError>
        ensures { IfOk result (λ p. p ≡ text.now) }
    {
        let items = read_items(alloc, text)?;
        let front = front_len(text, items.as_slice());
        let text = String::from_str(alloc, text)?;
        Ok(Pattern { text, items, front })
    }

    /// Lends the text that the pattern was read from. Takes no memory.
    pub fn text(&self) -> &str
        ensures { result.now ≡ self.now }
    {
        self.text.as_str()
    }

    /// Whether the pattern matches the whole of a path. Takes no memory.
    pub fn matches(&self, path: &str) -> bool
        ensures { IsTrue result ↔ Matches (items_of self.now) path.now }
    {
        // Most patterns and paths part ways before the first star.
        if !path.starts_with(self.literal_front()) {
            return false;
        }
        let (matched, _) = self.matches_counted(path);
        matched
    }

    /// Whether the pattern matches the whole of a path, and how many steps that took. A step is one
    /// test of an item against a character; a star is no step. The count saturates at the greatest
    /// `u64`. Takes no memory.
    #[tactic(auto, unfolding(crate::specs::Pattern::Matches))]
    pub fn matches_counted(&self, path: &str) -> (bool, u64)
        ensures answer { IsTrue result.0 ↔ Matches (items_of self.now) path.now }
        ensures at_most { result.1
            ≤ (length (items_of self.now) + 1) * (length (chars path.now) + 1) }
        ensures at_least { IsTrue result.0 → plain_count (items_of self.now) ≤ result.1 }
    {
        match_items(self.items.as_slice(), path)
    }

    /// Lends the part of the pattern's text before its first `*`, `?` or set. Each path that the
    /// pattern matches begins with it, and where it is the whole text, no other path is matched.
    /// Takes no memory.
    pub fn literal_front(&self) -> &str
        ensures value { result.now ≡ front_of (items_of self.now) }
        ensures begins { (path : List ℕ) → IsUtf8 path → Matches (items_of self.now) path
            → BeginsWith path result.now }
        ensures alone { result.now ≡ self.now → (path : List ℕ) → IsUtf8 path
            → Matches (items_of self.now) path → path ≡ self.now }
    {
        front_of_text(self.text(), self.front)
    }
}
