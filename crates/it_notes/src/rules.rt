//! Which artifact rule failed, and what it met.
ghost use Rattle.std.specs.Prelude.{IfOk, IfSome, List, ℕ};
ghost use Rattle.it_part_notes.specs.SumLine.{FirstLineReturns};
ghost use Rattle.it_report.specs.declared.refusal.Fault.TheVariants.{RuleFailed};
ghost use Rattle.it_notes.specs.DigestLists.{list_in};
ghost use Rattle.it_notes.specs.Known.{IsKnown};
ghost use Rattle.it_notes.specs.Level.{StepsStand};
ghost use Rattle.it_notes.specs.RefusalNotes.{TellsAt, TellsMetAt};

use crate::delivered::delivery_told;
use crate::fault_level::FaultLevel;
use crate::known::Known;
use crate::notes::{RefusalNotes, RuleNotes};
use it_chain::refusal::RuleItem;
use it_digest::sums::ListAlgorithm;
use it_docs::rule::Side;
use it_dsse::checks::Checks;
use it_part_notes::sum_lines::first_line_returns;
use it_rule_notes::level::Level;
use it_rule_notes::met_note::{MetNote, met_note, met_note_over};
use it_rule_notes::rule_note::rule_note;
use it_rule_notes::rule_place::{RuleBook, RulePlace};
use it_verify::inputs::Inputs;
use std::alloc::{AllocError, Global};

/// The place of the rule that failed.
#[derive(Drop)]
pub(crate) struct FailedRule<'a> {
    /// Whose rule it is.
    pub item: &'a RuleItem,
    /// The side that it judges.
    pub side: Side,
    /// Its place in the list of that side, from 0.
    pub index: usize,
}

/// How deep sublayouts may nest at most.
const DEEPEST: u8 = 8;

/// The text of the rule that failed, and what it met.
pub(crate) fn rule_told<C: Checks>(
    alloc: Global,
    known: &Known,
    level: &FaultLevel,
    rule: &FailedRule,
    checks: &C,
) -> Result<RefusalNotes, AllocError>
    requires known { IsKnown (C.panel checks.now) known.now.inputs.now known.now }
    requires steps { StepsStand (C.panel checks.now) known.now.inputs.now.depth level.now }
    ensures { IfOk result (λ told. (path : List ℕ) → TellsAt (C.panel checks.now)
        known.now.inputs.now level.now
        (RuleFailed rule.now.item.now rule.now.side rule.now.index path) told) }
{
    let book = RuleBook {
        layout: &level.signed.layout,
        deliver: known.policy.deliver.as_slice(),
    };
    let returns = list_returns(known.inputs, rule.item);
    let Some(rule) = rule_note(alloc, &book, rule.item, rule.side, rule.index)? else {
        return Ok(RefusalNotes::Nothing);
    };
    let met = met_at(alloc, known.inputs.depth, level, &rule.place, checks)?;
    let delivery = delivery_told(alloc, known, level, &rule.place)?;
    Ok(RefusalNotes::Rule(RuleNotes {
        rule,
        met,
        delivery,
        returns,
    }))
}

/// The digest list whose first line ends with a carriage return, if any, where it is a rule on what
/// is delivered that failed.
fn list_returns(inputs: &Inputs, item: &RuleItem) -> Option<ListAlgorithm>
    ensures { IfSome result (λ algorithm. FirstLineReturns (list_in algorithm inputs.now)) }
{
    let RuleItem::Deliver = item else {
        return None;
    };
    if first_line_returns(inputs.sums.as_slice()) {
        return Some(ListAlgorithm::Sha256);
    }
    if first_line_returns(inputs.sums512.as_slice()) {
        return Some(ListAlgorithm::Sha512);
    }
    None
}

/// What the rule at a place of a layout met.
fn met_at<C: Checks>(
    alloc: Global,
    depth: u8,
    level: &FaultLevel,
    place: &RulePlace,
    checks: &C,
) -> Result<Option<MetNote>, AllocError>
    requires { StepsStand (C.panel checks.now) depth level.now }
    ensures { IfOk result (λ found. IfSome found (TellsMetAt (C.panel checks.now)
        depth level.now place.now)) }
{
    if let Some(steps) = &level.steps {
        return met_note_over(alloc, &level.signed.layout, steps.as_slice(), place);
    }
    if depth > DEEPEST {
        return Ok(None);
    }
    let rule_level = Level {
        layout: &level.signed.layout,
        links: level.links,
        moment: level.moment,
    };
    met_note(alloc, &rule_level, depth, place, checks)
}
