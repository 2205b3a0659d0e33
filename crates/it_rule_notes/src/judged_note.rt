//! What a failed artifact rule on what is delivered met, and why.
ghost use Rattle.std.specs.Prelude.{◌≢◌, ◌↔◌, All, IfOk, IfSome, IsTrue};
ghost use Rattle.it_chain.specs.StepRules.{links_in};
ghost use Rattle.it_rules.specs.Item.{links_of};
ghost use Rattle.it_rules.specs.Rules.{NamesDiffer};
ghost use Rattle.it_rule_notes.specs.Delivery.{LooksAtSteps, TellsDelivery, TellsJudged};
ghost use Rattle.it_rule_notes.specs.inside.JudgedRules.{judging_in};

use crate::cause::{CauseNote, causes_of};
use crate::judged::JudgedRules;
use crate::met::met_at;
use crate::met_note::MetNote;
use crate::rule_place::{RuleBook, RulePlace, inspection_named, place_of};
use it_base::sequence::Sequence;
use it_chain::chain::StepResult;
use it_chain::links_to;
use it_chain::refusal::RuleItem;
use it_digest::artifacts::Artifacts;
use it_docs::rule::{Rule, Side};
use it_docs::step::Inspection;
use it_rules::item::Item;
use std::alloc::{AllocError, Global};

/// What a rule met, and why.
#[derive(Drop)]
pub struct JudgedNote {
    /// What it met.
    pub met: MetNote,
    /// Why it fails with the paths that it met.
    pub causes: Sequence<CauseNote>,
}

/// Says what a failed rule on what is delivered met (in-toto 1.0, section 4.3.3), and why: for a
/// `DISALLOW`, the paths that it forbids, at most the first ten, and for each which earlier `MATCH`
/// comes closest to taking it; for a `REQUIRE`, the earlier rule that consumed its path, or that
/// the path is not there, and a path much like it that is.
///
/// `book` has the layout and the rules, `delivered` are the files that they judge, `results` are
/// the records of the layout's steps, whose names all differ, and `index` is the rule's place,
/// from 0.
/// The answer is `None` where no such rule fails there, and where one of the rules is a `MATCH`
/// from an inspection.
///
/// # Errors
///
/// `AllocError` where memory was refused.
pub fn delivery_note(
    alloc: Global,
    book: &RuleBook,
    delivered: &Artifacts,
    results: &[StepResult],
    index: usize,
) -> Result<Option<JudgedNote>, AllocError>
    requires { NamesDiffer (links_in results.now) }
    ensures { IfOk result (λ found. IfSome found (TellsDelivery book.now.layout.now
        book.now.deliver.now delivered.now results.now index)) }
{
    if !look_at_steps(book.layout.inspections.as_slice(), book.deliver) {
        return Ok(None);
    }
    let links = links_to(alloc, results)?;
    let none = Artifacts::new(alloc);
    let judged = JudgedRules {
        rules: book.deliver,
        side: Side::Products,
        item: Item {
            materials: &none,
            products: delivered,
        },
        links: links.as_slice(),
    };
    let place = RulePlace {
        item: RuleItem::Deliver,
        side: Side::Products,
        index,
    };
    judged_note(alloc, &judged, &place)
}

/// What the rule at a place met over what is judged, and why.
fn judged_note(
    alloc: Global,
    judged: &JudgedRules,
    place: &RulePlace,
) -> Result<Option<JudgedNote>, AllocError>
    requires { NamesDiffer (links_of judged.now.links.now) }
    ensures { IfOk result (λ found. IfSome found
        (TellsJudged (judging_in judged.now) place.now)) }
{
    let Some(met) = met_at(alloc, judged, place.index)? else {
        return Ok(None);
    };
    let causes = causes_of(alloc, judged, place, &met)?;
    let place = place_of(alloc, place)?;
    Ok(Some(JudgedNote {
        met: MetNote { place, met },
        causes: Sequence::from(causes),
    }))
}

/// Whether no rule is a `MATCH` from an inspection.
fn look_at_steps(inspections: &[Inspection], rules: &[Rule]) -> bool
    ensures { IsTrue result ↔ All (LooksAtSteps inspections.now) rules.now }
{
    for rule in rules {
        if !looks_at_steps(inspections, rule) {
            return false;
        }
    }
    true
}

fn looks_at_steps(inspections: &[Inspection], rule: &Rule) -> bool
    ensures { IsTrue result ↔ LooksAtSteps inspections.now rule.now }
{
    match rule {
        Rule::Match { from, .. } => names_none(inspections, from.as_str()),
        _ => true,
    }
}

/// Whether no inspection has the name.
fn names_none(inspections: &[Inspection], name: &str) -> bool
    ensures { IsTrue result
        ↔ All (λ inspection. inspection.name ≢ name.now) inspections.now }
{
    match inspection_named(inspections, name) {
        Some(_) => false,
        None => true,
    }
}
