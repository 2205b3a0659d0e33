//! What a failed artifact rule of a step met.
ghost use Rattle.std.specs.Prelude.{◌≡◌, ◌≤◌, ◌++◌, Contains, IfOk, IfSome, OnOk};
ghost use Rattle.it_chain.specs.StepRules.{links_in};
ghost use Rattle.it_chain.specs.declared.refusal.RuleItem.TheVariants.{Step as of_step};
ghost use Rattle.it_rules.specs.Rules.{NamesDiffer};
ghost use Rattle.it_rule_notes.specs.CountingFile.{setting_of};
ghost use Rattle.it_rule_notes.specs.MetNote.{MeetsOver, TellsMet, TellsMetOver, met_line};

use crate::judged::JudgedRules;
use crate::level::Level;
use crate::met::{Met, met_at, push_met};
use crate::rule_place::{RulePlace, place_of, push_place};
use crate::step_records::{record_named, step_records};
use it_chain::chain::StepResult;
use it_chain::refusal::RuleItem;
use it_chain::{item_of, links_to, rules_of_step};
use it_docs::layout::Layout;
use it_docs::rule::Side;
use it_docs::step::{Step, step_named};
use it_dsse::checks::Checks;
use std::alloc::{AllocError, Global};

/// Where a rule stands, and what it met.
#[derive(Drop)]
pub struct MetNote {
    /// Where the rule stands.
    pub place: RulePlace,
    /// What it met.
    pub met: Met,
}

/// Says what a failed rule of a step met (in-toto 1.0, section 4.3.3): for a `DISALLOW`, the paths
/// that it forbids, at most the first ten; for a `REQUIRE`, the earlier rule that consumed its
/// path, or that the path is not there.
///
/// `place` is where the rule stands, the `checks` check the signatures, and sublayouts of
/// `level` may be up to `depth` deep, at most 8. The answer has the rule's place and what it met.
/// It is `None` where no rule of a step stands there, where the rule is neither of the two or does
/// not fail, and where the steps have no records because something other than their rules fails.
///
/// # Errors
///
/// `AllocError` where memory was refused.
pub fn met_note<C: Checks>(
    alloc: Global,
    level: &Level,
    depth: u8,
    place: &RulePlace,
    checks: &C,
) -> Result<Option<MetNote>, AllocError>
    requires { depth ≤ 8 }
    ensures { IfOk result (λ found. IfSome found (λ note. (note.place ≡ place.now)
        × TellsMet (setting_of (C.panel checks.now) level.now.moment) depth
        level.now.layout.now level.now.links.now note)) }
{
    if step_of(level.layout, &place.item).is_none() {
        return Ok(None);
    }
    match step_records(alloc, level, depth, checks)? {
        Some(chain) => met_note_over(alloc, level.layout, chain.steps.as_slice(), place),
        None => Ok(None),
    }
}

/// Says what a failed rule of a step met, as [`met_note`] does, over the records of the steps of a
/// layout, whose names all differ.
///
/// # Errors
///
/// `AllocError` where memory was refused.
pub fn met_note_over(
    alloc: Global,
    layout: &Layout,
    results: &[StepResult],
    place: &RulePlace,
) -> Result<Option<MetNote>, AllocError>
    requires { NamesDiffer (links_in results.now) }
    ensures { IfOk result (λ found. IfSome found (λ note. (note.place ≡ place.now)
        × TellsMetOver layout.now results.now note)) }
{
    let Some(step) = step_of(layout, &place.item) else {
        return Ok(None);
    };
    let Some(met) = met_over(alloc, results, step, place.side, place.index)? else {
        return Ok(None);
    };
    let place = place_of(alloc, place)?;
    Ok(Some(MetNote { place, met }))
}

/// The step that an item names.
fn step_of<'a>(layout: &'a Layout, item: &RuleItem) -> Option<&'a Step>
    ensures { IfSome result (λ step. Contains layout.now.steps step.now
        × (item.now ≡ of_step step.now.name)) }
{
    match item {
        RuleItem::Step(name) => step_named(layout.steps.as_slice(), name.as_str()),
        RuleItem::Inspection(_) | RuleItem::Deliver => None,
    }
}

/// What a step's rule at an index meets over the records.
fn met_over(
    alloc: Global,
    results: &[StepResult],
    step: &Step,
    side: Side,
    index: usize,
) -> Result<Option<Met>, AllocError>
    requires { NamesDiffer (links_in results.now) }
    ensures { IfOk result (λ found. IfSome found (MeetsOver results.now step.now side index)) }
{
    let Some(found) = record_named(results, step.name.as_str()) else {
        return Ok(None);
    };
    let links = links_to(alloc, results)?;
    let judged = JudgedRules {
        rules: rules_of_step(step, side),
        side,
        item: item_of(found),
        links: links.as_slice(),
    };
    met_at(alloc, &judged, index)
}

impl MetNote {
    /// Appends the note as a line for people.
    ///
    /// # Errors
    ///
    /// `AllocError` where memory was refused; a part of the line may have been appended then.
    pub fn push_line(&self, text: &mut Vec<u8>) -> Result<(), AllocError>
        ensures { OnOk result (text.new.items ≡ text.old.items ++ met_line self.now) }
    {
        push_place(text, &self.place)?;
        push_met(text, &self.met)
    }
}
