//! What the inspections of a layout recorded, and their artifact rules.
ghost use Rattle.std.specs.Prelude.{IfOk, MatchResult, flat_map, option_map, zip};
ghost use Rattle.std.specs.List.{AllByRecursion, AllZip};
ghost use Rattle.it_base.specs.Finds.{Finds};
ghost use Rattle.it_base.specs.Places.{IsFirst};
ghost use Rattle.it_rules.specs.Item.{links_of};
ghost use Rattle.it_rules.specs.Rules.{NamesDiffer, RulesHold};
ghost use Rattle.it_verify.specs.Inspections.{HasRecorded, InspectionFails, InspectionRulesHold};
ghost use Rattle.it_verify.specs.Inspections.{RecordFails, recorded_in, sides_of};
ghost use Rattle.it_verify.specs.inside.Failures.{RefusedAs};
ghost use Rattle.it_verify.specs.inside.Inspections.{AreFirsts, IsLinkNamed, IsRecord, SideFails};

use crate::failure::{Failure, refused, rule_failed};
use crate::inputs::Inputs;
use it_base::sequence::Sequence;
use it_base::text::Text;
use it_chain::link_in;
use it_chain::refusal::RuleItem;
use it_docs::link::Link;
use it_docs::rule::{Rule, Side};
use it_docs::step::Inspection;
use it_report::refusal::Fault;
use it_rules::item::{Item, Named};
use it_rules::rules::run_rules;
use std::alloc::{AllocError, Global};
use std::collections::BTreeMap;

/// The link that each inspection recorded, in the order of the inspections.
///
/// # Errors
///
/// `Refused` with the first inspection that has no record, or whose first record is not a link of
/// its name. `OutOfMemory` where memory was refused.
pub(crate) fn recorded_links(
    alloc: Global,
    inputs: &Inputs,
    inspections: &[Inspection],
) -> Result<Vec<Link>, Failure>
    ensures links { MatchResult result
        (λ links. AllZip (HasRecorded inputs.now) inspections.now links.items)
        (RefusedAs (IsFirst (RecordFails inputs.now) inspections.now)) }
{
    let firsts = first_records(alloc, inputs.records.as_slice())?;
    let mut links = Vec::new(alloc);
    for inspection in inspections {
        let name = inspection.name.as_str();
        let link = recorded_link(alloc, name, firsts.get(name).copied())?;
        links.push(link)?;
    }
    Ok(links)
}

/// The bytes of the first record of each name.
fn first_records<'a>(
    alloc: Global,
    records: &'a [(Text, Sequence<u8>)],
) -> Result<BTreeMap<&'a str, &'a [u8]>, AllocError>
    ensures firsts { IfOk result (AreFirsts records.now) }
{
    let mut firsts = BTreeMap::new(alloc);
    for (name, bytes) in records {
        let name = name.as_str();
        if !firsts.contains_key(name) {
            firsts.insert(name, bytes.as_slice())?;
        }
    }
    Ok(firsts)
}

/// Reads the bytes of a record, if there is one, as a link of this name.
fn recorded_link(alloc: Global, name: &str, bytes: Option<&[u8]>) -> Result<Link, Failure>
    ensures link { IsRecord name.now (option_map (λ b. b.now) bytes.entry) result }
{
    let Some(bytes) = bytes else {
        return Err(refused(alloc, Fault::RecordMissing(Text::copy(alloc, name)?)));
    };
    match link_named(alloc, name, bytes)? {
        Some(link) => Ok(link),
        None => Err(refused(alloc, Fault::BadRecord(Text::copy(alloc, name)?))),
    }
}

/// The bytes read as a link of this name, or `None` where they are not one.
fn link_named(alloc: Global, name: &str, bytes: &[u8]) -> Result<Option<Link>, AllocError>
    ensures link { IfOk result (Finds (IsLinkNamed name.now bytes.now)) }
{
    match link_in(alloc, bytes)? {
        Some(link) if link.name.as_str() == name => Ok(Some(link)),
        Some(_) => Ok(None),
        None => Ok(None),
    }
}

/// Judges the rules of all inspections over what they recorded, for each those on materials first.
/// `MATCH` looks at `links`.
///
/// # Errors
///
/// `Refused` with the first rule that fails, and `OutOfMemory` where memory was refused.
pub(crate) fn run_inspection_rules(
    alloc: Global,
    inspections: &[Inspection],
    recorded: &[Link],
    links: &[Named],
) -> Result<(), Failure>
    requires { NamesDiffer (links_of links.now) }
    ensures rules { MatchResult result
        (λ _. AllByRecursion (λ p. InspectionRulesHold (links_of links.now) p.0 p.1)
        (zip inspections.now recorded.now))
        (RefusedAs (IsFirst (InspectionFails (links_of links.now))
        (flat_map sides_of (zip inspections.now recorded.now)))) }
{
    for (inspection, link) in inspections.iter().zip(recorded) {
        let name = inspection.name.as_str();
        let materials = inspection.expected_materials.as_slice();
        run_side(alloc, name, (Side::Materials, materials), link, links)?;
        let products = inspection.expected_products.as_slice();
        run_side(alloc, name, (Side::Products, products), link, links)?;
    }
    Ok(())
}

/// Judges the rules of a side over what the inspection with this name recorded.
fn run_side(
    alloc: Global,
    name: &str,
    rules_of: (Side, &[Rule]),
    link: &Link,
    links: &[Named],
) -> Result<(), Failure>
    requires { NamesDiffer (links_of links.now) }
    ensures rules { MatchResult result
        (λ _. RulesHold rules_of.entry.1.now rules_of.entry.0
        (recorded_in link.now) (links_of links.now))
        (RefusedAs (SideFails (links_of links.now)
        name.now rules_of.entry.0 rules_of.entry.1.now link.now)) }
{
    let (side, rules) = rules_of;
    let item = Item {
        materials: &link.materials,
        products: &link.products,
    };
    match run_rules(alloc, side, rules, &item, links)? {
        None => Ok(()),
        Some(fault) => {
            let whose = RuleItem::Inspection(Text::copy(alloc, name)?);
            Err(rule_failed(alloc, whose, side, fault))
        }
    }
}
