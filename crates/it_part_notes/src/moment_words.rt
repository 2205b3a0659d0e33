//! The text of a note on what is no moment.
ghost use Rattle.std.specs.Prelude.{◌≡◌, ◌++◌, OnOk};
ghost use Rattle.it_part_notes.specs.Moments.{mistake_form, moment_line};

use crate::moment_note::{Mistake, MomentNote};
use crate::sum_line_words::{push_text, push_told};
use std::alloc::AllocError;

impl MomentNote {
    /// Appends the note as a line for people, with the text as `push_cut_name` writes it.
    ///
    /// # Errors
    ///
    /// `AllocError` where memory was refused; a part of the line may have been appended then.
    pub fn push_line(&self, text: &mut Vec<u8>) -> Result<(), AllocError>
        ensures { OnOk result (text.new.items ≡ text.old.items ++ moment_line self.now) }
    {
        push_told(text, "moment: ", &self.text)?;
        push_text(text, mistake_words(self.mistake))?;
        push_text(text, "\n")
    }
}

fn mistake_words(mistake: Option<Mistake>) -> &'static str
    ensures { result.now ≡ mistake_form mistake }
{
    match mistake {
        None => " is no moment such as 2030-01-01T00:00:00Z",
        Some(Mistake::Date) => " is no moment such as 2030-01-01T00:00:00Z: it has no time",
        Some(Mistake::Space) => {
            " is no moment such as 2030-01-01T00:00:00Z: it has a space in place of T"
        }
        Some(Mistake::Offset) => {
            " is no moment such as 2030-01-01T00:00:00Z: it has an offset in place of Z"
        }
        Some(Mistake::Fraction) => {
            " is no moment such as 2030-01-01T00:00:00Z: it has a fraction in place of Z"
        }
        Some(Mistake::Digits) => " is no moment such as 2030-01-01T00:00:00Z: it is a number",
        Some(Mistake::Word) => {
            " is no moment such as 2030-01-01T00:00:00Z: it does not begin with a digit"
        }
    }
}
