//! What a rule on what is delivered met, and why it failed.
ghost use Rattle.std.specs.Prelude.{IfOk, IfSome};
ghost use Rattle.it_dsse.specs.Panel.{Panel};
ghost use Rattle.it_notes.specs.Known.{IsKnown};
ghost use Rattle.it_notes.specs.Level.{StepsStand};
ghost use Rattle.it_notes.specs.RefusalNotes.{TellsDeliveryAt};

use crate::fault_level::FaultLevel;
use crate::known::Known;
use it_chain::refusal::RuleItem;
use it_docs::rule::Side;
use it_rule_notes::judged_note::{JudgedNote, delivery_note};
use it_rule_notes::rule_place::{RuleBook, RulePlace};
use std::alloc::{AllocError, Global};

/// What the rule at a place met, and why, where it is one on what is delivered and the records of
/// the layout's steps are at hand.
pub(crate) fn delivery_told(
    alloc: Global,
    known: &Known,
    level: &FaultLevel,
    place: &RulePlace,
) -> Result<Option<JudgedNote>, AllocError>
    requires { (panel : Panel) × StepsStand panel known.now.inputs.now.depth level.now }
    ensures { (panel : Panel) → IsKnown panel known.now.inputs.now known.now
        → StepsStand panel known.now.inputs.now.depth level.now → IfOk result (λ found.
        IfSome found (TellsDeliveryAt panel known.now.inputs.now level.now place.now)) }
{
    let RuleItem::Deliver = &place.item else {
        return Ok(None);
    };
    let Side::Products = place.side else {
        return Ok(None);
    };
    let Some(steps) = &level.steps else {
        return Ok(None);
    };
    let rules = known.policy.deliver.as_slice();
    let book = RuleBook {
        layout: &level.signed.layout,
        deliver: rules,
    };
    let results = steps.as_slice();
    delivery_note(alloc, &book, &known.delivered, results, place.index)
}
