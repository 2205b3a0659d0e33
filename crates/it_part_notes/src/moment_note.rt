//! The note on a text that is no moment.
ghost use Rattle.std.specs.Prelude.{◌↔◌, All, IfOk, IfSome, IsTrue};
ghost use Rattle.std.specs.Bool.{OnTrue};
ghost use Rattle.std.specs.Char.{is_ascii_digit};
ghost use Rattle.it_part_notes.specs.Moments.{IsMistake, TellsMoment};

use crate::byte_at::stands;
use it_base::text::Text;
use it_docs::moment::read_moment;
use std::alloc::{AllocError, Global};

/// A text that is no moment.
#[derive(Drop)]
pub struct MomentNote {
    /// The text.
    pub text: Text,
    /// What is wrong with it, where that is known.
    pub mistake: Option<Mistake>,
}

/// What is wrong with a text that is no moment.
#[derive(Clone, Copy, Debug, Drop, PartialEq, Eq)]
pub enum Mistake {
    /// It is as long as a date, and in its form.
    Date,
    /// A space stands in place of `T`.
    Space,
    /// An offset stands in place of `Z`.
    Offset,
    /// A fraction of a second stands in place of `Z`.
    Fraction,
    /// It has digits alone, as a number of seconds has.
    Digits,
    /// It does not begin with a digit.
    Word,
}

/// Says what is wrong with a text that was read as a moment: it is not one, and the first of the
/// mistakes above that it has.
///
/// The answer is `None` where the text is a moment.
///
/// # Errors
///
/// `AllocError` where memory was refused.
pub fn moment_note(alloc: Global, text: &str) -> Result<Option<MomentNote>, AllocError>
    ensures { IfOk result (λ found. IfSome found (TellsMoment text.now)) }
{
    match read_moment(text) {
        Ok(_) => Ok(None),
        Err(_) => {
            let mistake = mistake_in(text.as_bytes());
            let text = Text::copy(alloc, text)?;
            Ok(Some(MomentNote { text, mistake }))
        }
    }
}

/// The first mistake in a text, of those that are known.
fn mistake_in(text: &[u8]) -> Option<Mistake>
    ensures { IfSome result (IsMistake text.now) }
{
    if is_date(text) {
        return Some(Mistake::Date);
    }
    if stands(text, 10, b' ') {
        return Some(Mistake::Space);
    }
    if has_offset(text) {
        return Some(Mistake::Offset);
    }
    if stands(text, 19, b'.') {
        return Some(Mistake::Fraction);
    }
    mistake_of_digits(text)
}

/// Whether a text is as long as a date, with a hyphen after the year and one after the month.
fn is_date(text: &[u8]) -> bool
    ensures { OnTrue result (IsMistake text.now Mistake.Date) }
{
    if text.len() != 10 {
        return false;
    }
    stands(text, 4, b'-') && stands(text, 7, b'-')
}

/// Whether a text has the sign of an offset in place of `Z`.
fn has_offset(text: &[u8]) -> bool
    ensures { OnTrue result (IsMistake text.now Mistake.Offset) }
{
    if stands(text, 19, b'+') {
        return true;
    }
    stands(text, 19, b'-')
}

/// Whether a text has digits alone, or does not begin with one.
fn mistake_of_digits(text: &[u8]) -> Option<Mistake>
    ensures { IfSome result (IsMistake text.now) }
{
    let Some(first) = text.first() else {
        return None;
    };
    if !first.is_ascii_digit() {
        return Some(Mistake::Word);
    }
    if are_digits(text) {
        return Some(Mistake::Digits);
    }
    None
}

fn are_digits(text: &[u8]) -> bool
    ensures { IsTrue result ↔ All (λ byte. IsTrue (is_ascii_digit byte)) text.now }
{
    text.iter().all(|byte| byte.is_ascii_digit())
}
