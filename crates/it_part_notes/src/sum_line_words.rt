//! The text of a note on a line of a digest list.
ghost use Rattle.std.specs.Prelude.{◌≡◌, ◌++◌, OnOk};
ghost use Rattle.it_part_notes.specs.SumLine.{digits_form, fault_form, list_form, numbered_form};
ghost use Rattle.it_part_notes.specs.SumLine.{repeated_form, sum_line, told_form};

use crate::sum_line_note::{LineFault, SumLineNote};
use it_base::text::Text;
use it_digest::sums::ListAlgorithm;
use it_report::name::push_cut_name;
use std::alloc::AllocError;

impl SumLineNote {
    /// Appends the note as a line for people, with a path as `push_cut_name` writes it.
    ///
    /// # Errors
    ///
    /// `AllocError` where memory was refused; a part of the line may have been appended then.
    pub fn push_line(&self, text: &mut Vec<u8>) -> Result<(), AllocError>
        ensures { OnOk result (text.new.items ≡ text.old.items ++ sum_line self.now) }
    {
        push_numbered(text, list_words(self.algorithm), self.number, "")?;
        push_fault(text, self.algorithm, &self.fault)?;
        push_text(text, "\n")
    }
}

/// Which list it is, up to the number of the line.
fn list_words(algorithm: ListAlgorithm) -> &'static str
    ensures { result.now ≡ list_form algorithm }
{
    match algorithm {
        ListAlgorithm::Sha256 => "digest list: line ",
        ListAlgorithm::Sha512 => "digest list by SHA-512: line ",
    }
}

/// How many digits a line of a list has.
fn digits_words(algorithm: ListAlgorithm) -> &'static str
    ensures { result.now ≡ digits_form algorithm }
{
    match algorithm {
        ListAlgorithm::Sha256 => "64 hexadecimal digits",
        ListAlgorithm::Sha512 => "128 hexadecimal digits",
    }
}

fn push_fault(
    text: &mut Vec<u8>,
    algorithm: ListAlgorithm,
    fault: &LineFault,
) -> Result<(), AllocError>
    ensures { OnOk result (text.new.items ≡ text.old.items ++ fault_form algorithm fault.now) }
{
    match fault {
        LineFault::ByteOrderMark => push_text(text, " begins with a byte order mark"),
        LineFault::Digits(many) => {
            push_numbered(text, " begins with ", *many, " in place of ")?;
            push_text(text, digits_words(algorithm))
        }
        LineFault::NoDigits => {
            push_text(text, " does not begin with ")?;
            push_text(text, digits_words(algorithm))
        }
        LineFault::NoMark => {
            push_text(
                text,
                " has neither two spaces nor a space and a star after the digits",
            )
        }
        LineFault::NoPath => push_text(text, " has no path"),
        LineFault::NotUtf8 => push_text(text, " has a path that is not UTF-8"),
        LineFault::Repeated { path, earlier } => push_repeated(text, path, *earlier),
    }
}

fn push_repeated(text: &mut Vec<u8>, path: &Text, earlier: u64) -> Result<(), AllocError>
    ensures { OnOk result (text.new.items ≡ text.old.items ++ repeated_form path.now earlier) }
{
    push_told(text, " has the path ", path)?;
    push_numbered(text, ", which line ", earlier, " has too")
}

/// Appends a name after a text.
#[tactic(auto, unfolding(crate::specs::SumLine::told_form))]
pub(crate) fn push_told(text: &mut Vec<u8>, before: &str, name: &Text) -> Result<(), AllocError>
    ensures { OnOk result (text.new.items ≡ text.old.items ++ told_form before.now name.now) }
{
    push_text(text, before)?;
    push_cut_name(text, name.as_str().as_bytes())
}

/// Appends a number between two texts.
#[tactic(auto, unfolding(crate::specs::SumLine::numbered_form))]
fn push_numbered(
    text: &mut Vec<u8>,
    before: &str,
    number: u64,
    after: &str,
) -> Result<(), AllocError>
    ensures { OnOk result
        (text.new.items ≡ text.old.items ++ numbered_form before.now number after.now) }
{
    let alloc = *text.allocator();
    let words = format!(in alloc; "{before}{number}{after}")?;
    push_text(text, words.as_str())
}

pub(crate) fn push_text(text: &mut Vec<u8>, added: &str) -> Result<(), AllocError>
    ensures { OnOk result (text.new.items ≡ text.old.items ++ added.now) }
{
    text.extend_from_slice(added.as_bytes())
}
