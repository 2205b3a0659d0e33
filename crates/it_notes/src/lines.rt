//! The lines that people read: at most forty, the last of which can say how many more notes there
//! are.
ghost use Rattle.std.specs.Prelude.{◌≡◌, ◌++◌, ◌∷◌, [], ℕ, List, IfOk, OnOk, map};
ghost use Rattle.std.specs.List.{flat_map};
ghost use Rattle.it_notes.specs.ShownLines.{Adds, Hold, shown_lines};

use std::alloc::{AllocError, Global};

/// How many lines are written out.
const MOST: u64 = 40;

/// How many of them are on a note each, where there are more notes.
const MOST_SHOWN: usize = 39;

/// A note that has a line for people.
pub(crate) trait Line {
    // the line, with its line feed
    ghost line: { Self → List ℕ };

    /// Appends the line with its line feed.
    fn push_line(&self, text: &mut Vec<u8>) -> Result<(), AllocError>
        ensures { OnOk result (text.new.items ≡ text.old.items ++ line self.now) };
}

/// Lines, as they are written.
#[derive(Drop)]
pub struct Lines {
    alloc: Global,
    /// The first lines, each with its line feed.
    lines: Vec<Vec<u8>>,
    /// How many notes there are, written out or not.
    count: u64,
}

impl Lines {
    /// No line.
    pub(crate) fn new(alloc: Global) -> Lines
        ensures { Hold result [] }
    {
        Lines {
            alloc,
            lines: Vec::new(alloc),
            count: 0,
        }
    }

    /// Adds the lines of notes, in their order.
    pub(crate) fn add_all<N: Line>(&mut self, notes: &[N]) -> Result<(), AllocError>
        ensures { OnOk result (Adds (map N.line notes.now) self.old self.new) }
    {
        for note in notes {
            self.add(note)?;
        }
        Ok(())
    }

    /// Adds the line of a note.
    pub(crate) fn add<N: Line>(&mut self, note: &N) -> Result<(), AllocError>
        ensures { OnOk result (Adds (N.line note.now ∷ []) self.old self.new) }
    {
        self.count = self.count.saturating_add(1);
        if self.count > MOST {
            return Ok(());
        }
        let mut line = Vec::new(self.alloc);
        note.push_line(&mut line)?;
        self.lines.push(line)?;
        Ok(())
    }

    /// The lines, each with its line feed. Where there are more notes than lines to write out, the
    /// last line says how many are left out.
    ///
    /// # Errors
    ///
    /// `AllocError` where memory was refused.
    pub fn into_lines(self) -> Result<Vec<Vec<u8>>, AllocError>
        ensures { (all : List (List ℕ)) → Hold self all
            → IfOk result (λ lines. map (λ line. line.items) lines.items ≡ shown_lines all) }
    {
        let Lines {
            alloc,
            mut lines,
            count,
        } = self;
        if count > MOST {
            let rest = format!(in alloc; "{} further notes\n", count - MOST + 1)?;
            lines.truncate(MOST_SHOWN);
            lines.push(rest.into_bytes())?;
        }
        Ok(lines)
    }

    /// The text of the lines.
    ///
    /// # Errors
    ///
    /// `AllocError` where memory was refused.
    pub fn into_text(self) -> Result<Vec<u8>, AllocError>
        ensures { (all : List (List ℕ)) → Hold self all
            → IfOk result (λ text. text.items ≡ flat_map (λ line. line) (shown_lines all)) }
    {
        let mut text = Vec::new(self.alloc);
        let lines = self.into_lines()?;
        for line in lines.as_slice() {
            text.extend_from_slice(line.as_slice())?;
        }
        Ok(text)
    }
}
