//! Where artifact rules stand.
ghost use Rattle.std.specs.Prelude.{◌≡◌, ◌≢◌, ◌++◌, All, Contains, IfOk, MatchOption, OnOk};
ghost use Rattle.it_base.specs.Finds.{FindsAs};
ghost use Rattle.it_rule_notes.specs.RulePlace.{AreRulesAt, document_form, inspection_rules};
ghost use Rattle.it_rule_notes.specs.RulePlace.{item_form, place_form};

use crate::line::{push_text, push_told};
use it_base::text::Text;
use it_chain::refusal::RuleItem;
use it_chain::rules_of_step;
use it_docs::layout::Layout;
use it_docs::rule::{Rule, Side};
use it_docs::step::{Inspection, step_named};
use it_report::side_text;
use std::alloc::{AllocError, Global};

/// The rules that a refusal can be about.
#[derive(Drop)]
pub struct RuleBook<'a> {
    /// The layout at which a delivery was refused.
    pub layout: &'a Layout,
    /// The rules of the policy on what is delivered.
    pub deliver: &'a [Rule],
}

/// Where a rule stands.
#[derive(Drop)]
pub struct RulePlace {
    /// Whose rule it is.
    pub item: RuleItem,
    /// The side that the rule judges.
    pub side: Side,
    /// The rule's place in the list of that side, from 0.
    pub index: usize,
}

/// The rules of an item on a side.
pub(crate) fn rules_at<'a>(book: &RuleBook<'a>, item: &RuleItem, side: Side) -> Option<&'a [Rule]>
    ensures { FindsAs (λ rules. rules.now)
        (AreRulesAt book.now.layout.now book.now.deliver.now item.now side) result }
{
    match item {
        RuleItem::Step(name) => {
            let step = step_named(book.layout.steps.as_slice(), name.as_str())?;
            Some(rules_of_step(step, side))
        }
        RuleItem::Inspection(name) => {
            let inspections = book.layout.inspections.as_slice();
            let inspection = inspection_named(inspections, name.as_str())?;
            Some(rules_of_inspection(inspection, side))
        }
        RuleItem::Deliver => match side {
            Side::Materials => None,
            Side::Products => Some(book.deliver),
        },
    }
}

/// An inspection of this name.
pub(crate) fn inspection_named<'a>(
    inspections: &'a [Inspection],
    name: &str,
) -> Option<&'a Inspection>
    ensures { MatchOption result (All (λ inspection. inspection.name ≢ name.now) inspections.now)
        (λ inspection. Contains inspections.now inspection.now
        × (inspection.now.name ≡ name.now)) }
{
    for inspection in inspections {
        if inspection.name.as_str() == name {
            return Some(inspection);
        }
    }
    None
}

fn rules_of_inspection(inspection: &Inspection, side: Side) -> &[Rule]
    ensures { result.now ≡ inspection_rules side inspection.now }
{
    match side {
        Side::Materials => inspection.expected_materials.as_slice(),
        Side::Products => inspection.expected_products.as_slice(),
    }
}

/// The item, copied.
pub(crate) fn copy_of(alloc: Global, item: &RuleItem) -> Result<RuleItem, AllocError>
    ensures { IfOk result (λ copy. copy ≡ item.now) }
{
    match item {
        RuleItem::Step(name) => Ok(RuleItem::Step(Text::copy(alloc, name.as_str())?)),
        RuleItem::Inspection(name) => Ok(RuleItem::Inspection(Text::copy(alloc, name.as_str())?)),
        RuleItem::Deliver => Ok(RuleItem::Deliver),
    }
}

/// The place, copied.
pub(crate) fn place_of(alloc: Global, place: &RulePlace) -> Result<RulePlace, AllocError>
    ensures { IfOk result (λ copy. copy ≡ place.now) }
{
    Ok(RulePlace {
        item: copy_of(alloc, &place.item)?,
        side: place.side,
        index: place.index,
    })
}

/// Appends where a rule stands.
pub(crate) fn push_place(text: &mut Vec<u8>, place: &RulePlace) -> Result<(), AllocError>
    ensures { OnOk result (text.new.items ≡ text.old.items ++ place_form place.now) }
{
    push_place_at(text, &place.item, place.side, place.index)
}

/// Appends where the rule at an index stands in the list of an item for a side.
pub(crate) fn push_place_at(
    text: &mut Vec<u8>,
    item: &RuleItem,
    side: Side,
    index: usize,
) -> Result<(), AllocError>
    ensures { OnOk result (text.new.items ≡ text.old.items
        ++ place_form (record { item = item.now; side = side; index = index })) }
{
    let alloc = *text.allocator();
    let number = format!(in alloc; ": rule {index} of the ")?;
    text.extend_from_slice(document_of(item).as_bytes())?;
    text.extend_from_slice(number.as_bytes())?;
    text.extend_from_slice(side_text(side).as_bytes())?;
    push_item(text, item)
}

fn document_of(item: &RuleItem) -> &'static str
    ensures { result.now ≡ document_form item.now }
{
    match item {
        RuleItem::Step(_) | RuleItem::Inspection(_) => "layout",
        RuleItem::Deliver => "policy",
    }
}

fn push_item(text: &mut Vec<u8>, item: &RuleItem) -> Result<(), AllocError>
    ensures { OnOk result (text.new.items ≡ text.old.items ++ item_form item.now) }
{
    match item {
        RuleItem::Step(name) => push_told(text, " of step ", name, ""),
        RuleItem::Inspection(name) => push_told(text, " of inspection ", name, ""),
        RuleItem::Deliver => push_text(text, " of the delivery"),
    }
}
