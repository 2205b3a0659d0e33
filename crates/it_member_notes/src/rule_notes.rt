//! The notes on what a layout asks for.
ghost use Rattle.std.specs.Prelude.{◌≡◌, All, Contains, IfOk, OnOk, is_some};
ghost use Rattle.std.specs.FinMap.{get};
ghost use Rattle.it_member_notes.specs.LayoutNotes.{AreRulesOf, Holds, rules_of_inspection};
ghost use Rattle.it_member_notes.specs.LayoutNotes.{rules_of_step};
ghost use Rattle.it_member_notes.specs.inside.NamedLayout.{AreNamesOf};

use crate::layout_note::{Item, LayoutNote};
use crate::list_notes::notes_on;
use crate::named_layout::NamedLayout;
use crate::side_rules::{rules_of_inspection, rules_of_step};
use it_base::text::Text;
use it_docs::layout::Layout;
use it_docs::rule::{Rule, Side};
use it_docs::step::{Inspection, Step};
use std::alloc::{AllocError, Global};

/// The notes on a layout's rules and keys: steps before inspections, in the layout's order. Each
/// note is true of the layout.
///
/// # Errors
///
/// `AllocError` where memory was refused.
pub fn layout_rule_notes(alloc: Global, layout: &Layout) -> Result<Vec<LayoutNote>, AllocError>
    ensures { IfOk result (λ notes. All (Holds layout.now) notes.items) }
{
    let named = NamedLayout::of(alloc, layout)?;
    let mut notes = Vec::new(alloc);
    for step in layout.steps.as_slice() {
        note_step(alloc, &named, step, &mut notes)?;
    }
    for inspection in layout.inspections.as_slice() {
        note_inspection(alloc, &named, inspection, &mut notes)?;
    }
    Ok(notes)
}

fn note_step(
    alloc: Global,
    named: &NamedLayout,
    step: &Step,
    notes: &mut Vec<LayoutNote>,
) -> Result<(), AllocError>
    requires names { AreNamesOf named.now.layout.now named.now.names }
    requires in_layout { Contains named.now.layout.now.steps step.now }
    requires before { All (Holds named.now.layout.now) notes.old.items }
    ensures { OnOk result (All (Holds named.now.layout.now) notes.new.items) }
{
    note_keys(alloc, named.layout, step, notes)?;
    for side in [Side::Materials, Side::Products] {
        let list = list_of_step(alloc, step, side)?;
        note_rules(alloc, named, &list, notes)?;
    }
    Ok(())
}

fn note_inspection(
    alloc: Global,
    named: &NamedLayout,
    inspection: &Inspection,
    notes: &mut Vec<LayoutNote>,
) -> Result<(), AllocError>
    requires names { AreNamesOf named.now.layout.now named.now.names }
    requires in_layout { Contains named.now.layout.now.inspections inspection.now }
    requires before { All (Holds named.now.layout.now) notes.old.items }
    ensures { OnOk result (All (Holds named.now.layout.now) notes.new.items) }
{
    for side in [Side::Materials, Side::Products] {
        let list = list_of_inspection(alloc, inspection, side)?;
        note_rules(alloc, named, &list, notes)?;
    }
    Ok(())
}

fn note_keys(
    alloc: Global,
    layout: &Layout,
    step: &Step,
    notes: &mut Vec<LayoutNote>,
) -> Result<(), AllocError>
    requires in_layout { Contains layout.now.steps step.now }
    requires before { All (Holds layout.now) notes.old.items }
    ensures { OnOk result (All (Holds layout.now) notes.new.items) }
{
    for id in step.pubkeys.as_slice() {
        if !has_key_object(layout, id) {
            notes.push(no_key_object(alloc, &step.name, id)?)?;
        }
    }
    Ok(())
}

fn has_key_object(layout: &Layout, id: &Text) -> bool
    ensures { result ≡ is_some (get layout.now.keys id.now) }
{
    layout.keys.get(id.as_str()).is_some()
}

fn no_key_object(alloc: Global, step: &Text, id: &Text) -> Result<LayoutNote, AllocError>
    ensures { IfOk result (λ note. note ≡ LayoutNote.NoKeyObject step.now id.now) }
{
    Ok(LayoutNote::NoKeyObject {
        step: Text::copy(alloc, step.as_str())?,
        id: Text::copy(alloc, id.as_str())?,
    })
}

/// A list of rules of a layout, and whose they are.
#[derive(Drop)]
struct RuleList<'l> {
    item: Item,
    side: Side,
    rules: &'l [Rule],
}

fn list_of_step<'l>(alloc: Global, step: &'l Step, side: Side) -> Result<RuleList<'l>, AllocError>
    ensures item { IfOk result (λ list. list.item ≡ Item.Step step.now.name) }
    ensures side { IfOk result (λ list. list.side ≡ side) }
    ensures rules { IfOk result (λ list. list.rules.now ≡ rules_of_step side step.now) }
{
    let rules = rules_of_step(step, side);
    let item = Item::Step(Text::copy(alloc, step.name.as_str())?);
    Ok(RuleList { item, side, rules })
}

fn list_of_inspection<'l>(
    alloc: Global,
    inspection: &'l Inspection,
    side: Side,
) -> Result<RuleList<'l>, AllocError>
    ensures item { IfOk result (λ list. list.item ≡ Item.Inspection inspection.now.name) }
    ensures side { IfOk result (λ list. list.side ≡ side) }
    ensures rules { IfOk result (λ list. list.rules.now ≡ rules_of_inspection side inspection.now) }
{
    let rules = rules_of_inspection(inspection, side);
    let item = Item::Inspection(Text::copy(alloc, inspection.name.as_str())?);
    Ok(RuleList { item, side, rules })
}

fn note_rules(
    alloc: Global,
    named: &NamedLayout,
    list: &RuleList<'_>,
    notes: &mut Vec<LayoutNote>,
) -> Result<(), AllocError>
    requires names { AreNamesOf named.now.layout.now named.now.names }
    requires are_rules { AreRulesOf named.now.layout.now list.now.item list.now.side
        list.now.rules.now }
    requires before { All (Holds named.now.layout.now) notes.old.items }
    ensures { OnOk result (All (Holds named.now.layout.now) notes.new.items) }
{
    for note in notes_on(alloc, named, list.rules)? {
        notes.push(LayoutNote::Rules {
            item: list.item.copy(alloc)?,
            side: list.side,
            note,
        })?;
    }
    Ok(())
}
