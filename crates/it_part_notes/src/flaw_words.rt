//! The words on what is no JSON object, or no envelope.
ghost use Rattle.std.specs.Prelude.{◌≡◌, ◌∷◌, [], ◌++◌, OnOk, codes, decimal};
ghost use Rattle.it_part_notes.specs.PartLines.{flaw_form, instead_form, shape_form, spot_form};

use crate::flaw::{Flaw, Spot};
use crate::instead::Instead;
use crate::shape::Shape;
use it_report::name::push_cut_name;
use std::alloc::AllocError;

/// Appends why bytes are no JSON document, if that is known.
pub(crate) fn push_flaw(text: &mut Vec<u8>, flaw: Option<Flaw>) -> Result<(), AllocError>
    ensures { OnOk result (text.new.items ≡ text.old.items ++ flaw_form flaw) }
{
    match flaw {
        None => Ok(()),
        Some(Flaw::Empty) => push_text(text, ": it is empty"),
        Some(Flaw::ByteOrderMark) => push_text(text, ": it begins with a byte order mark"),
        Some(Flaw::Utf16) => push_text(text, ": it begins as UTF-16 does"),
        Some(Flaw::NotUtf8) => push_text(text, ": it is not UTF-8"),
        Some(Flaw::Lines) => push_text(text, ": its first line is a JSON text of its own"),
        Some(Flaw::Look(spot)) => push_spot(text, spot),
        Some(Flaw::LookAtEnd) => push_text(text, ": look at its end"),
    }
}

fn push_spot(text: &mut Vec<u8>, spot: Spot) -> Result<(), AllocError>
    ensures { OnOk result (text.new.items ≡ text.old.items ++ spot_form spot) }
{
    push_line_number(text, spot.line)?;
    push_column(text, spot.column)?;
    push_text(text, ", where ")?;
    push_cut_name(text, &[spot.byte])?;
    push_text(text, " stands")
}

fn push_line_number(text: &mut Vec<u8>, line: u64) -> Result<(), AllocError>
    ensures { OnOk result (text.new.items
        ≡ text.old.items ++ codes ": look at line " ++ decimal line) }
{
    let alloc = *text.allocator();
    let words = format!(in alloc; ": look at line {line}")?;
    push_text(text, words.as_str())
}

fn push_column(text: &mut Vec<u8>, column: usize) -> Result<(), AllocError>
    ensures { OnOk result (text.new.items
        ≡ text.old.items ++ codes ", column " ++ decimal column) }
{
    let alloc = *text.allocator();
    let words = format!(in alloc; ", column {column}")?;
    push_text(text, words.as_str())
}

/// Appends what a value is that is no object, if it is a list, a text or a number.
pub(crate) fn push_shape(text: &mut Vec<u8>, shape: Option<Shape>) -> Result<(), AllocError>
    ensures { OnOk result (text.new.items ≡ text.old.items ++ shape_form shape) }
{
    match shape {
        None => Ok(()),
        Some(Shape::List) => push_text(text, ": it is a list"),
        Some(Shape::Text) => push_text(text, ": it is a text"),
        Some(Shape::Number) => push_text(text, ": it is a number"),
    }
}

/// What stands in place of an envelope, as it is said. Takes no memory.
pub(crate) fn instead_words(instead: Instead) -> &'static str
    ensures { result.now ≡ instead_form instead }
{
    match instead {
        Instead::Bundle => {
            " is no envelope, but has the member dsseEnvelope, as a bundle with one has"
        }
        Instead::Wrapper =>
            " is no envelope, but has the member signed, as in-toto's older wrapper has",
        Instead::Layout => " is no envelope, but what is to be in one: its _type is layout",
        Instead::Link => " is no envelope, but what is to be in one: its _type is link",
    }
}

fn push_text(text: &mut Vec<u8>, added: &str) -> Result<(), AllocError>
    ensures { OnOk result (text.new.items ≡ text.old.items ++ added.now) }
{
    text.extend_from_slice(added.as_bytes())
}
