//! Paths that one of two digest lists alone names, as lines.
ghost use Rattle.std.specs.Prelude.{◌≡◌, ◌++◌, OnOk, take};
ghost use Rattle.std.specs.List.{flat_map};
ghost use Rattle.it_strict.specs.ListedOnceText.{list_document as document_of, once_line};
ghost use Rattle.it_strict.specs.ListedOnceText.{once_sentence, once_start, once_text};
ghost use Rattle.it_strict.specs.ListedOnceText.{unnamed_form};

use crate::listed_once::ListedOnce;
use it_check::{MOST_WRITTEN, push_more, push_text, push_told};
use it_digest::sums::ListAlgorithm;
use std::alloc::AllocError;

/// The name of the finding on a path that one of two digest lists alone names.
pub const LISTED_ONCE_NAME: &str = "listed-once";

/// Appends the lines of the first 40, and how many there are where there are more.
#[tactic(auto, unfolding(crate::specs::ListedOnceText::once_text))]
pub(crate) fn push_listed_once(text: &mut Vec<u8>, listed: &[ListedOnce]) -> Result<(), AllocError>
    ensures { OnOk result (text.new.items ≡ text.old.items ++ once_text listed.now) }
{
    push_first(text, listed)?;
    push_more(text, "files listed once", listed.len())
}

/// Appends the lines of the first 40.
fn push_first(text: &mut Vec<u8>, listed: &[ListedOnce]) -> Result<(), AllocError>
    ensures { OnOk result
        (text.new.items ≡ text.old.items ++ flat_map once_line (take 40 listed.now)) }
{
    if listed.len() > MOST_WRITTEN {
        push_each(text, &listed[..MOST_WRITTEN])
    } else {
        push_each(text, listed)
    }
}

fn push_each(text: &mut Vec<u8>, listed: &[ListedOnce]) -> Result<(), AllocError>
    ensures { OnOk result (text.new.items ≡ text.old.items ++ flat_map once_line listed.now) }
{
    for once in listed {
        push_once(text, once)?;
    }
    Ok(())
}

#[tactic(auto, unfolding(crate::specs::ListedOnceText::once_line))]
fn push_once(text: &mut Vec<u8>, once: &ListedOnce) -> Result<(), AllocError>
    ensures { OnOk result (text.new.items ≡ text.old.items ++ once_line once.now) }
{
    push_start_of(text, once.list)?;
    push_once_sentence(text, once)?;
    push_text(text, "\n")
}

/// Appends the beginning of the line of a path that this list alone names.
#[tactic(auto, unfolding(crate::specs::ListedOnceText::once_start))]
fn push_start_of(text: &mut Vec<u8>, list: ListAlgorithm) -> Result<(), AllocError>
    ensures { OnOk result (text.new.items ≡ text.old.items ++ once_start list) }
{
    push_text(text, list_document(list))?;
    push_text(text, " ")?;
    push_text(text, LISTED_ONCE_NAME)?;
    push_text(text, ": ")
}

/// Appends what is said of a path that one digest list alone names, as a sentence without a full
/// stop, with the path written as reports write names.
///
/// # Errors
///
/// `AllocError` where memory was refused; a part of the sentence may have been appended then.
pub fn push_once_sentence(text: &mut Vec<u8>, once: &ListedOnce) -> Result<(), AllocError>
    ensures { OnOk result (text.new.items ≡ text.old.items ++ once_sentence once.now) }
{
    push_told(text, unnamed_words(once.list), &once.path, "")
}

/// That the other list does not name a path, which follows.
#[tactic(auto, unfolding(crate::specs::ListedOnceText::unnamed_form))]
fn unnamed_words(list: ListAlgorithm) -> &'static str
    ensures { result.now ≡ unnamed_form list }
{
    match list {
        ListAlgorithm::Sha256 => "the digest list by SHA-512 does not name ",
        ListAlgorithm::Sha512 => "the digest list by SHA-256 does not name ",
    }
}

/// A digest list as a document, named as the option that hands it in. Takes no memory.
#[tactic(auto, unfolding(crate::specs::ListedOnceText::list_document))]
pub fn list_document(list: ListAlgorithm) -> &'static str
    ensures { result.now ≡ document_of list }
{
    match list {
        ListAlgorithm::Sha256 => "sums",
        ListAlgorithm::Sha512 => "sums512",
    }
}
