//! Lines that vouch for nobody.
ghost use Rattle.std.specs.Prelude.{◌≡◌, ◌++◌, OnOk, codes, decimal};
ghost use Rattle.it_vouched.specs.SilentText.{silent_text};

use it_vouches::Shortfall;
use std::alloc::AllocError;

/// A line that is a bundle and vouches for nobody.
#[derive(Clone, Copy)]
pub struct SilentLine {
    /// The number of the line, from 1.
    pub line: usize,
    /// The first condition that it misses.
    pub shortfall: Shortfall,
}

impl SilentLine {
    /// Appends the line of a note, which ends with a line feed.
    ///
    /// # Errors
    ///
    /// `AllocError` where memory was refused; a part of the line may have been appended then.
    #[tactic(auto, unfolding(crate::specs::SilentText::silent_text))]
    pub fn push_line(&self, text: &mut Vec<u8>) -> Result<(), AllocError>
        ensures { OnOk result (text.new.items ≡ text.old.items ++ silent_text self.now) }
    {
        push_front(text, self.line)?;
        self.shortfall.push_phrase(text)?;
        text.push(b'\n')?;
        Ok(())
    }
}

fn push_front(text: &mut Vec<u8>, line: usize) -> Result<(), AllocError>
    ensures { OnOk result (text.new.items ≡ text.old.items ++ (codes "provenance line "
        ++ decimal line ++ codes ": a bundle that vouches for nobody: ")) }
{
    let alloc = *text.allocator();
    let front = format!(in alloc; "provenance line {line}: a bundle that vouches for nobody: ")?;
    text.extend_from_slice(front.as_bytes())
}
