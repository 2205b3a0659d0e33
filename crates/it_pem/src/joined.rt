//! The text that lines of base64 make.
ghost use Rattle.std.specs.Prelude.{◌≡◌, ◌+◌, ◌≤◌, ◌++◌, [], ◌↔◌, IsTrue, length};

use std::marker::Model;

/// The most characters that lines may have together.
const MOST_CHARACTERS: usize = 2048;

/// Lines of base64, one after another. To a contract it is the list of the characters.
#[derive(Drop)]
pub(crate) struct Joined {
    characters: [u8; 2048],
    count: usize,
}

impl Model for Joined {
    ghost use Rattle.std.specs.Prelude.{ℕ, List, ◌≤◌, take};

    ghost Value = { List ℕ };

    ghost view = { λ joined. take joined.count joined.characters };

    ghost invariant = { λ joined. joined.count ≤ 2048 };
}

impl Joined {
    /// No lines.
    pub(crate) fn new() -> Joined
        ensures { result ≡ [] }
    {
        Joined {
            characters: [0; 2048],
            count: 0,
        }
    }

    /// Adds a line. Answers whether there was room for it.
    pub(crate) fn push(&mut self, line: &str) -> bool
        ensures room { IsTrue result ↔ (length self.old + length line.now ≤ 2048) }
        ensures added { IsTrue result → self.new ≡ self.old ++ line.now }
    {
        let line = line.as_bytes();
        if line.len() > MOST_CHARACTERS - self.count {
            return false;
        }
        let room = &mut self.characters[self.count..self.count + line.len()];
        room.copy_from_slice(line);
        self.count += line.len();
        true
    }

    /// The characters.
    pub(crate) fn as_bytes(&self) -> &[u8]
        ensures bytes { result.now ≡ self.now }
        ensures few { length self.now ≤ 2048 }
    {
        &self.characters[..self.count]
    }
}
