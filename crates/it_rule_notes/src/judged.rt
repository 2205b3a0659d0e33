//! Artifact rules judged on a side of an item.
ghost use Rattle.std.specs.Prelude.{◌↔◌, ◌≤◌, IfOk, IsTrue, MatchOption, length, map};
ghost use Rattle.it_rules.specs.Item.{artifacts_on, links_of, recorded_of};
ghost use Rattle.it_rules.specs.Rules.{NamesDiffer, Stands};
ghost use Rattle.it_rule_notes.specs.Met.{AreLeftAt};
ghost use Rattle.it_rule_notes.specs.inside.JudgedRules.{IsFirstClaim, IsUnclaimed, judging_in};

use it_docs::rule::{Rule, Side};
use it_rules::claims::claims;
use it_rules::free::free_paths;
use it_rules::item::{Item, Named};
use std::alloc::{AllocError, Global};

/// Rules over what items recorded.
#[derive(Drop)]
pub(crate) struct JudgedRules<'a> {
    /// The rules, in their order.
    pub rules: &'a [Rule],
    /// The side that they judge.
    pub side: Side,
    /// The item that they judge.
    pub item: Item<'a>,
    /// What items recorded, under their names, which all differ.
    pub links: &'a [Named<'a>],
}

/// A rule that claims a path.
#[derive(Drop)]
pub(crate) struct Claim<'a> {
    /// The rule's place in its list, from 0.
    pub index: usize,
    /// The rule.
    pub rule: &'a Rule,
}

/// The first rule before the end that claims a path.
pub(crate) fn first_claim<'a>(
    alloc: Global,
    judged: &JudgedRules<'a>,
    end: usize,
    path: &str,
) -> Result<Option<Claim<'a>>, AllocError>
    requires { NamesDiffer (links_of judged.now.links.now) }
    ensures { IfOk result (λ found. MatchOption found
        (IsUnclaimed (judging_in judged.now) end path.now)
        (IsFirstClaim (judging_in judged.now) end path.now)) }
{
    for (index, rule) in judged.rules.iter().enumerate() {
        if index >= end {
            return Ok(None);
        }
        if claims(alloc, rule, judged.side, &judged.item, judged.links, path)? {
            return Ok(Some(Claim { index, rule }));
        }
    }
    Ok(None)
}

/// Whether a path is on the side that is judged.
pub(crate) fn stands(judged: &JudgedRules, path: &str) -> bool
    ensures { IsTrue result
        ↔ Stands (artifacts_on judged.now.side (recorded_of judged.now.item)) path.now }
{
    judged.item.artifacts_on(judged.side).get(path).is_some()
}

/// The paths of the side that no rule before the index claims, in the order of their bytes.
pub(crate) fn free_before<'a>(
    alloc: Global,
    judged: &JudgedRules<'a>,
    index: usize,
) -> Result<Vec<&'a str>, AllocError>
    requires names { NamesDiffer (links_of judged.now.links.now) }
    requires index { index ≤ length judged.now.rules.now }
    ensures { IfOk result (λ paths.
        AreLeftAt (judging_in judged.now) index (map (λ path. path.now) paths.items)) }
{
    let rules = &judged.rules[..index];
    let paths = free_paths(alloc, judged.side, rules, &judged.item, judged.links)?;
    Ok(paths)
}
