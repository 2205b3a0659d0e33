//! Pieces of lines.
ghost use Rattle.std.specs.Prelude.{◌≡◌, ◌++◌, OnOk, decimal};
ghost use Rattle.it_check.specs.Pieces.{quoted, told_form};
ghost use Rattle.it_part_notes.specs.SumLine.{numbered_form};

use it_base::text::Text;
use it_report::name::push_name;
use std::alloc::AllocError;

/// Appends a text.
///
/// # Errors
///
/// `AllocError` where memory was refused; a part of it may have been appended then.
pub fn push_text(text: &mut Vec<u8>, added: &str) -> Result<(), AllocError>
    ensures { OnOk result (text.new.items ≡ text.old.items ++ added.now) }
{
    text.extend_from_slice(added.as_bytes())
}

/// Appends a number in decimal.
pub(crate) fn push_number(text: &mut Vec<u8>, number: usize) -> Result<(), AllocError>
    ensures { OnOk result (text.new.items ≡ text.old.items ++ decimal number) }
{
    let alloc = *text.allocator();
    let digits = format!(in alloc; "{number}")?;
    push_text(text, digits.as_str())
}

/// Appends a name as reports write it, in quotation marks.
#[tactic(auto, unfolding(crate::specs::Pieces::quoted))]
pub(crate) fn push_quoted(text: &mut Vec<u8>, name: &str) -> Result<(), AllocError>
    ensures { OnOk result (text.new.items ≡ text.old.items ++ quoted name.now) }
{
    push_text(text, "\"")?;
    push_name(text, name.as_bytes())?;
    push_text(text, "\"")
}

/// Appends a name, as reports write it, in quotation marks between two texts.
///
/// # Errors
///
/// `AllocError` where memory was refused; a part of it may have been appended then.
#[tactic(auto, unfolding(crate::specs::Pieces::told_form))]
pub fn push_told(
    text: &mut Vec<u8>,
    before: &str,
    name: &Text,
    after: &str,
) -> Result<(), AllocError>
    ensures { OnOk result
        (text.new.items ≡ text.old.items ++ told_form before.now name.now after.now) }
{
    push_text(text, before)?;
    push_quoted(text, name.as_str())?;
    push_text(text, after)
}

/// Appends a number in decimal between two texts.
#[tactic(auto, unfolding(it_part_notes::specs::SumLine::numbered_form))]
pub(crate) fn push_told_number(
    text: &mut Vec<u8>,
    before: &str,
    number: usize,
    after: &str,
) -> Result<(), AllocError>
    ensures { OnOk result
        (text.new.items ≡ text.old.items ++ numbered_form before.now number after.now) }
{
    push_text(text, before)?;
    push_number(text, number)?;
    push_text(text, after)
}
