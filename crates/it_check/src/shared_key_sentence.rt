//! What is said of findings on keys with more than one holder.
ghost use Rattle.std.specs.Prelude.{◌≡◌, ◌++◌, OnOk, codes, decimal};
ghost use Rattle.it_check.specs.Pieces.{told_form};
ghost use Rattle.it_part_notes.specs.SumLine.{numbered_form};
ghost use Rattle.it_check.specs.SharedKeySentence.{holder_form, other_form, shared_key_sentence};

use crate::writing::{push_number, push_told, push_told_number};
use it_base::text::Text;
use it_findings::shared_key::{Holder, SharedKey};
use std::alloc::AllocError;

/// Appends what is said of a key with more than one holder.
#[tactic(auto, unfolding(crate::specs::SharedKeySentence::shared_key_sentence))]
pub(crate) fn push_shared_key(text: &mut Vec<u8>, shared: &SharedKey) -> Result<(), AllocError>
    ensures { OnOk result (text.new.items ≡ text.old.items ++ shared_key_sentence shared.now) }
{
    push_holder(text, &shared.first)?;
    push_other(text, &shared.holder)
}

/// Appends who has a key.
#[tactic(auto, unfolding(crate::specs::SharedKeySentence::holder_form))]
fn push_holder(text: &mut Vec<u8>, holder: &Holder) -> Result<(), AllocError>
    ensures { OnOk result (text.new.items ≡ text.old.items ++ holder_form holder.now) }
{
    match holder {
        Holder::Owner(id) => push_told(text, "owner ", id, ""),
        Holder::Builder { id, level } => push_builder(text, id, *level),
    }
}

fn push_builder(text: &mut Vec<u8>, id: &Text, level: u8) -> Result<(), AllocError>
    ensures { OnOk result (text.new.items ≡ text.old.items
        ++ (told_form (codes "builder ") id.now (codes " of level ") ++ decimal level)) }
{
    push_told(text, "builder ", id, " of level ")?;
    push_number(text, level as usize)
}

/// Appends who else has it.
#[tactic(auto, unfolding(crate::specs::SharedKeySentence::other_form))]
fn push_other(text: &mut Vec<u8>, holder: &Holder) -> Result<(), AllocError>
    ensures { OnOk result (text.new.items ≡ text.old.items ++ other_form holder.now) }
{
    match holder {
        Holder::Owner(id) => push_told(text, " and owner ", id, " have the same key"),
        Holder::Builder { id, level } => push_other_builder(text, id, *level),
    }
}

fn push_other_builder(text: &mut Vec<u8>, id: &Text, level: u8) -> Result<(), AllocError>
    ensures { OnOk result (text.new.items
        ≡ text.old.items ++ (told_form (codes " and builder ") id.now (codes " of level ")
        ++ numbered_form (codes "") level (codes " have the same key"))) }
{
    push_told(text, " and builder ", id, " of level ")?;
    push_told_number(text, "", level as usize, " have the same key")
}
