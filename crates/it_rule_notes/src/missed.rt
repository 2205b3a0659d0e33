//! Why `MATCH` rules do not take a path.
ghost use Rattle.std.specs.Prelude.{◌≡◌, ◌<◌, ◌⊎◌, ℕ, List, Some, Contains, IfOk, IfSome};
ghost use Rattle.std.specs.Prelude.{MatchOption};
ghost use Rattle.std.specs.List.{slice_get};
ghost use Rattle.it_rules.specs.Item.{Recorded, links_of, recorded_of};
ghost use Rattle.it_rule_notes.specs.Met.{Judging};
ghost use Rattle.it_rule_notes.specs.Missed.{AreSetsAt, IsMissed, Misses};
ghost use Rattle.it_rule_notes.specs.declared.target.Target.{Target};
ghost use Rattle.it_rule_notes.specs.inside.JudgedRules.{judging_in};

use crate::judged::JudgedRules;
use crate::near::near_path;
use crate::target::{Target, target_of};
use it_base::text::Text;
use it_digest::compare::{Compare, DigestSet};
use it_docs::rule::Rule;
use it_rules::item::Named;
use std::alloc::{AllocError, Global};

/// The digests of an artifact on two sides.
#[derive(Clone, Copy, Debug)]
pub struct TwoSets {
    /// Where the rule looks.
    pub there: DigestSet,
    /// Where the rule is judged.
    pub here: DigestSet,
}

/// Why a `MATCH` does not take a path.
#[derive(Drop)]
pub enum Miss {
    /// Nothing is recorded under the name that it gives.
    Unnamed,
    /// The path was not recorded there; then a path that was, and that is much like it, if any.
    Unrecorded(Option<Text>),
    /// The digests have no algorithm in common.
    Unshared(TwoSets),
    /// The digests differ.
    Different(TwoSets),
}

/// A `MATCH` that does not take a path.
#[derive(Drop)]
pub struct Missed {
    /// Its place in its list, from 0.
    pub index: usize,
    /// Where it looks.
    pub target: Target,
    /// Why it does not take the path.
    pub miss: Miss,
}

/// The `MATCH` before the index that comes closest to taking a path: the first for which the
/// digests differ, or otherwise the first for which they have no algorithm in common, or otherwise
/// the first that looks for the path.
pub(crate) fn closest(
    alloc: Global,
    judged: &JudgedRules,
    index: usize,
    path: &str,
) -> Result<Option<Missed>, AllocError>
    ensures { IfOk result (λ found. IfSome found
        (IsMissed (judging_in judged.now) index path.now)) }
{
    let mut found = None;
    for (place, rule) in judged.rules.iter().enumerate() {
        if place >= index {
            return Ok(found);
        }
        let missed = missed_at(alloc, judged, place, rule, path)?;
        found = closer(found, missed);
    }
    Ok(found)
}

/// The closer of both, the first where neither is closer.
fn closer(first: Option<Missed>, second: Option<Missed>) -> Option<Missed>
    ensures { (result ≡ first) ⊎ (result ≡ second) }
{
    if distance(&second) < distance(&first) {
        second
    } else {
        first
    }
}

/// How far a rule is from taking a path.
fn distance(missed: &Option<Missed>) -> u8 {
    match missed {
        None => 3,
        Some(missed) => match &missed.miss {
            Miss::Unnamed | Miss::Unrecorded(_) => 2,
            Miss::Unshared(_) => 1,
            Miss::Different(_) => 0,
        },
    }
}

/// Why the rule at a place does not take a path, where it is a `MATCH` that looks for it.
fn missed_at(
    alloc: Global,
    judged: &JudgedRules,
    place: usize,
    rule: &Rule,
    path: &str,
) -> Result<Option<Missed>, AllocError>
    requires { slice_get judged.now.rules.now place ≡ Some rule.now }
    ensures { (index : ℕ) → place < index → IfOk result (λ found. IfSome found
        (IsMissed (judging_in judged.now) index path.now)) }
{
    let Some(target) = target_of(alloc, rule, path)? else {
        return Ok(None);
    };
    match miss_of(judged, path, &target) {
        None => Ok(None),
        Some(miss) => Ok(Some(Missed {
            index: place,
            target,
            miss,
        })),
    }
}

/// Why a `MATCH` that looks here does not take a path.
fn miss_of(judged: &JudgedRules, path: &str, target: &Target) -> Option<Miss>
    ensures { IfSome result (Misses (judging_in judged.now) target.now path.now) }
{
    let from = target.from.as_str();
    let Some(link) = link_named(judged.links, from) else {
        return Some(Miss::Unnamed);
    };
    let recorded = link.item.artifacts_on(target.side);
    let place = target.path.as_str();
    let Some(there) = recorded.get(place) else {
        return Some(Miss::Unrecorded(None));
    };
    let artifacts = judged.item.artifacts_on(judged.side);
    let here = artifacts.get(path)?;
    miss_between(TwoSets { there, here })
}

/// Why digests do not agree.
fn miss_between(sets: TwoSets) -> Option<Miss>
    ensures { (judging : Judging) (target : Target) (path : List ℕ)
        → AreSetsAt judging target path sets
        → IfSome result (Misses judging target path) }
{
    match sets.there.compare(&sets.here) {
        Compare::Agree => None,
        Compare::Apart => Some(Miss::Unshared(sets)),
        Compare::Differ => Some(Miss::Different(sets)),
    }
}

/// The artifacts under a name.
fn link_named<'a, 'b>(links: &'b [Named<'a>], name: &str) -> Option<&'b Named<'a>>
    ensures { MatchOption result
        ((item : Recorded) → ¬ Contains (links_of links.now) (name.now, item))
        (λ link. Contains (links_of links.now) (name.now, recorded_of link.now.item)) }
{
    for link in links {
        if link.name == name {
            return Some(link);
        }
    }
    None
}

/// The same, with a path that is much like the one that the rule looks for, where that was not
/// recorded.
pub(crate) fn with_near(
    alloc: Global,
    judged: &JudgedRules,
    missed: Missed,
) -> Result<Missed, AllocError>
    ensures { (index : ℕ) (path : List ℕ) → IsMissed (judging_in judged.now) index path missed
        → IfOk result (IsMissed (judging_in judged.now) index path) }
{
    let Missed {
        index,
        target,
        miss,
    } = missed;
    let near = unrecorded(alloc, judged, &target)?;
    let miss = nearer(near, miss);
    Ok(Missed {
        index,
        target,
        miss,
    })
}

/// What was found, or otherwise the miss.
fn nearer(found: Option<Miss>, miss: Miss) -> Miss
    ensures { (result ≡ miss) ⊎ (found ≡ Some result) }
{
    match found {
        Some(found) => found,
        None => miss,
    }
}

/// That nothing is recorded where a `MATCH` looks, with a path that is much like that one.
fn unrecorded(
    alloc: Global,
    judged: &JudgedRules,
    target: &Target,
) -> Result<Option<Miss>, AllocError>
    ensures { (path : List ℕ) → IfOk result (λ found. IfSome found
        (Misses (judging_in judged.now) target.now path)) }
{
    let Some(link) = link_named(judged.links, target.from.as_str()) else {
        return Ok(None);
    };
    let recorded = link.item.artifacts_on(target.side);
    if recorded.get(target.path.as_str()).is_some() {
        return Ok(None);
    }
    let near = near_path(alloc, recorded, target.path.as_str())?;
    Ok(Some(Miss::Unrecorded(near)))
}
