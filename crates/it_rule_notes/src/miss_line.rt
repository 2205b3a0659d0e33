//! Why a `MATCH` does not take a path, as a line for people.
ghost use Rattle.std.specs.Prelude.{◌≡◌, ◌++◌, OnOk};
ghost use Rattle.it_rule_notes.specs.Cause.{different_form, miss_form, missed_form, near_form};
ghost use Rattle.it_rule_notes.specs.Cause.{unrecorded_form, unshared_form};

use crate::digest_words::{push_algorithms, push_digests};
use crate::line::{push_text, push_told};
use crate::missed::{Miss, Missed, TwoSets};
use crate::rule_place::{RulePlace, push_place_at};
use crate::target::Target;
use it_base::text::Text;
use it_report::side_text;
use std::alloc::AllocError;

/// Appends which `MATCH` beside the rule at a place does not take a path, and why.
#[tactic(auto, unfolding(crate::specs::Cause::missed_form))]
pub(crate) fn push_missed(
    text: &mut Vec<u8>,
    place: &RulePlace,
    path: &Text,
    missed: &Missed,
) -> Result<(), AllocError>
    ensures { OnOk result
        (text.new.items ≡ text.old.items ++ missed_form place.now path.now missed.now) }
{
    push_place_at(text, &place.item, place.side, missed.index)?;
    push_told(
        text,
        ", a MATCH from ",
        &missed.target.from,
        ", does not take ",
    )?;
    push_told(text, "", path, ": ")?;
    push_miss(text, &missed.target, &missed.miss)
}

fn push_miss(text: &mut Vec<u8>, target: &Target, miss: &Miss) -> Result<(), AllocError>
    ensures { OnOk result
        (text.new.items ≡ text.old.items ++ miss_form target.now miss.now) }
{
    match miss {
        Miss::Unnamed => push_text(text, "nothing was recorded under that name\n"),
        Miss::Unrecorded(near) => push_unrecorded(text, target, near),
        Miss::Unshared(sets) => push_unshared(text, &target.from, sets),
        Miss::Different(sets) => push_different(text, &target.from, sets),
    }
}

#[tactic(auto, unfolding(crate::specs::Cause::unrecorded_form))]
fn push_unrecorded(
    text: &mut Vec<u8>,
    target: &Target,
    near: &Option<Text>,
) -> Result<(), AllocError>
    ensures { OnOk result
        (text.new.items ≡ text.old.items ++ unrecorded_form target.now near.now) }
{
    push_told(text, "no ", &target.path, " is among the ")?;
    push_text(text, side_text(target.side))?;
    push_told(text, " of ", &target.from, "")?;
    push_near(text, near)
}

fn push_near(text: &mut Vec<u8>, near: &Option<Text>) -> Result<(), AllocError>
    ensures { OnOk result (text.new.items ≡ text.old.items ++ near_form near.now) }
{
    match near {
        Some(near) => push_told(text, ", the nearest is ", near, "\n"),
        None => push_text(text, "\n"),
    }
}

#[tactic(auto, unfolding(crate::specs::Cause::different_form))]
fn push_different(text: &mut Vec<u8>, from: &Text, sets: &TwoSets) -> Result<(), AllocError>
    ensures { OnOk result (text.new.items ≡ text.old.items ++ different_form from.now sets.now) }
{
    push_told(text, "", from, " recorded")?;
    push_digests(text, &sets.there)?;
    push_text(text, ", and here it has")?;
    push_digests(text, &sets.here)?;
    push_text(text, "\n")
}

#[tactic(auto, unfolding(crate::specs::Cause::unshared_form))]
fn push_unshared(text: &mut Vec<u8>, from: &Text, sets: &TwoSets) -> Result<(), AllocError>
    ensures { OnOk result (text.new.items ≡ text.old.items ++ unshared_form from.now sets.now) }
{
    push_told(text, "no algorithm is in both, of ", from, ":")?;
    push_algorithms(text, &sets.there)?;
    push_text(text, ", and here:")?;
    push_algorithms(text, &sets.here)?;
    push_text(text, "\n")
}
