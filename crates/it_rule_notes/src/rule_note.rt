//! The text of a rule that failed.
ghost use Rattle.std.specs.Prelude.{◌≡◌, ◌++◌, IfOk, OnOk};
ghost use Rattle.std.specs.List.{flat_map};
ghost use Rattle.it_base.specs.Finds.{Finds};
ghost use Rattle.it_rule_notes.specs.Rule.{AreWordsAt, TellsRule, rule_line, word_form};

use crate::rule_place::{RuleBook, RulePlace, copy_of, push_place, rules_at};
use crate::rule_words::words_of;
use it_base::sequence::Sequence;
use it_base::text::Text;
use it_chain::refusal::RuleItem;
use it_docs::rule::Side;
use it_report::name::push_cut_name;
use std::alloc::{AllocError, Global};

/// A rule in its words.
#[derive(Drop)]
pub struct RuleNote {
    /// Where the rule stands.
    pub place: RulePlace,
    /// The words of the rule.
    pub words: Sequence<Text>,
}

/// Says which rule is at this place, from 0, in the list of an item for a side (in-toto 1.0,
/// section 4.3.3).
///
/// The answer has the rule's place and its words, or is `None` where no rule stands there.
///
/// # Errors
///
/// `AllocError` where memory was refused.
pub fn rule_note(
    alloc: Global,
    book: &RuleBook,
    item: &RuleItem,
    side: Side,
    index: usize,
) -> Result<Option<RuleNote>, AllocError>
    ensures { IfOk result (Finds (λ note.
        (note.place ≡ record { item = item.now; side = side; index = index })
        × TellsRule book.now.layout.now book.now.deliver.now note)) }
{
    let Some(words) = words_at(alloc, book, item, side, index)? else {
        return Ok(None);
    };
    let item = copy_of(alloc, item)?;
    let place = RulePlace { item, side, index };
    Ok(Some(RuleNote { place, words }))
}

/// The words of the rule at a place.
fn words_at(
    alloc: Global,
    book: &RuleBook,
    item: &RuleItem,
    side: Side,
    index: usize,
) -> Result<Option<Sequence<Text>>, AllocError>
    ensures { IfOk result (Finds (AreWordsAt book.now.layout.now
        book.now.deliver.now (record { item = item.now; side = side; index = index }))) }
{
    let Some(rules) = rules_at(book, item, side) else {
        return Ok(None);
    };
    let Some(rule) = rules.get(index) else {
        return Ok(None);
    };
    Ok(Some(words_of(alloc, rule)?))
}

impl RuleNote {
    /// Appends the note as a line for people.
    ///
    /// # Errors
    ///
    /// `AllocError` where memory was refused; a part of the line may have been appended then.
    pub fn push_line(&self, text: &mut Vec<u8>) -> Result<(), AllocError>
        ensures { OnOk result (text.new.items ≡ text.old.items ++ rule_line self.now) }
    {
        push_place(text, &self.place)?;
        text.extend_from_slice(b" is:")?;
        push_words(text, self.words.as_slice())?;
        text.push(b'\n')?;
        Ok(())
    }
}

/// Appends words, each after a space.
pub(crate) fn push_words(text: &mut Vec<u8>, words: &[Text]) -> Result<(), AllocError>
    ensures { OnOk result (text.new.items ≡ text.old.items ++ flat_map word_form words.now) }
{
    for word in words {
        push_word(text, word)?;
    }
    Ok(())
}

fn push_word(text: &mut Vec<u8>, word: &Text) -> Result<(), AllocError>
    ensures { OnOk result (text.new.items ≡ text.old.items ++ word_form word.now) }
{
    text.push(b' ')?;
    push_cut_name(text, word.as_str().as_bytes())
}
