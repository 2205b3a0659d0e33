//! The delivered files: that there is one, and the artifact rules on them.
ghost use Rattle.std.specs.Prelude.{◌≡◌, ◌≢◌, MatchResult};
ghost use Rattle.std.specs.FinMap.{empty};
ghost use Rattle.it_rules.specs.Item.{links_of};
ghost use Rattle.it_rules.specs.Rules.{NamesDiffer, RulesHold};
ghost use Rattle.it_verify.specs.Delivered.{DeliverFails, delivery};
ghost use Rattle.it_verify.specs.Refusals.{whole};
ghost use Rattle.it_verify.specs.inside.Failures.{RefusedAs};

use crate::failure::{Failure, refused, rule_failed};
use it_chain::refusal::RuleItem;
use it_digest::artifacts::Artifacts;
use it_docs::rule::{Rule, Side};
use it_report::refusal::Fault;
use it_rules::item::{Item, Named};
use it_rules::rules::run_rules;
use std::alloc::Global;

/// Checks that some file is delivered.
///
/// # Errors
///
/// `Refused` where none is.
pub(crate) fn check_some_file(alloc: Global, delivered: &Artifacts) -> Result<(), Failure>
    ensures some_file { MatchResult result (λ _. delivered.now ≢ empty) (RefusedAs (λ refusal.
        (delivered.now ≡ empty) × (refusal ≡ whole Fault.NoFiles))) }
{
    if delivered.is_empty() {
        return Err(refused(alloc, Fault::NoFiles));
    }
    Ok(())
}

/// Judges the rules on what is delivered: products, made from no materials. `MATCH` looks at
/// `links`.
///
/// # Errors
///
/// `Refused` with the first rule that fails, and `OutOfMemory` where memory was refused.
pub(crate) fn run_deliver_rules(
    alloc: Global,
    rules: &[Rule],
    delivered: &Artifacts,
    links: &[Named],
) -> Result<(), Failure>
    requires { NamesDiffer (links_of links.now) }
    ensures rules { MatchResult result
        (λ _. RulesHold rules.now Side.Products (delivery delivered.now) (links_of links.now))
        (RefusedAs (DeliverFails (links_of links.now) rules.now delivered.now)) }
{
    let none = Artifacts::new(alloc);
    let item = Item {
        materials: &none,
        products: delivered,
    };
    match run_rules(alloc, Side::Products, rules, &item, links)? {
        None => Ok(()),
        Some(fault) => Err(rule_failed(alloc, RuleItem::Deliver, Side::Products, fault)),
    }
}
