//! Running a list of rules.
ghost use Rattle.std.specs.Prelude.{◌≡◌, ◌↔◌, length, IfOk, IfSome, IsNone, MatchOption};
ghost use Rattle.it_rules.specs.Item.{links_of, recorded_of};
ghost use Rattle.it_rules.specs.Paths.{ArePaths};
ghost use Rattle.it_rules.specs.Marks.{IsLeft};
ghost use Rattle.it_rules.specs.Rules.{FailsWith, HoldsOver, IsFirstFault, NamesDiffer, RulesHold};

use crate::item::{Item, Named, Subject};
use crate::listed_artifacts::ListedArtifacts;
use crate::marks::{consume, is_left, least_match};
use it_base::text::Text;
use it_docs::rule::{Rule, Side};
use std::alloc::{AllocError, Global};

/// The first rule of a list that fails.
#[derive(Drop)]
pub struct RuleFault {
    /// The index of the rule in its list, from 0.
    pub index: usize,
    /// The path with which it fails: for `DISALLOW`, the least unconsumed path that it matches, in
    /// the order of bytes; for `REQUIRE`, its own text.
    pub path: Text,
}

/// Runs artifact rules on one side of an item (in-toto 1.0, section 4.3.3), each over the paths
/// that the rules before it have not consumed. What no rule consumes is allowed.
///
/// `side` is the side of `item` that is judged, and `links` are the items that `MATCH` rules may
/// name, under names that all differ. A `MATCH` from a name that is not there consumes nothing.
///
/// The answer is `None` where every rule holds, otherwise the first that does not.
///
/// # Errors
///
/// `AllocError` where memory was refused.
pub fn run_rules(
    alloc: Global,
    side: Side,
    rules: &[Rule],
    item: &Item,
    links: &[Named],
) -> Result<Option<RuleFault>, AllocError>
    requires { NamesDiffer (links_of links.now) }
    ensures holds { IfOk result (λ found. IsNone found
        ↔ RulesHold rules.now side (recorded_of item.now) (links_of links.now)) }
    ensures fails { IfOk result (λ found. IfSome found (λ fault.
        IsFirstFault rules.now side (recorded_of item.now) (links_of links.now)
        fault.index fault.path)) }
{
    let ListedArtifacts { paths, digests } = ListedArtifacts::of(alloc, item.artifacts_on(side))?;
    let digests = digests.as_slice();
    let subject = Subject {
        side,
        item,
        digests,
        links,
    };
    let mut marks = vec![in alloc; false; paths.len()]?;
    for (index, rule) in rules.iter().enumerate() {
        if let Some(path) = failing_path(rule, &paths, &marks) {
            let path = Text::copy(alloc, path)?;
            return Ok(Some(RuleFault { index, path }));
        }
        consume(alloc, &paths, &mut marks, rule, &subject)?;
    }
    Ok(None)
}

/// The path with which a rule fails over the unmarked paths, if it does.
fn failing_path<'a>(rule: &'a Rule, paths: &[&'a str], marks: &[bool]) -> Option<&'a str>
    requires paths { ArePaths paths.now }
    requires marks { length marks.now ≡ length paths.now }
    ensures { MatchOption result (HoldsOver rule.now (IsLeft paths.now marks.now))
        (λ path. (¬ HoldsOver rule.now (IsLeft paths.now marks.now))
        × FailsWith rule.now (IsLeft paths.now marks.now) path.now) }
{
    match rule {
        Rule::Disallow(pattern) => least_match(paths, marks, pattern),
        Rule::Require(path) => missing(paths, marks, path.as_str()),
        Rule::Match { .. } | Rule::Create(_) | Rule::Delete(_) | Rule::Modify(_) | Rule::Allow(_) =>
            None,
    }
}

/// The path, if it is not among the unmarked paths.
fn missing<'a>(paths: &[&'a str], marks: &[bool], path: &'a str) -> Option<&'a str>
    requires paths { ArePaths paths.now }
    requires marks { length marks.now ≡ length paths.now }
    ensures { MatchOption result (IsLeft paths.now marks.now path.now)
        (λ absent. (absent.now ≡ path.now) × ¬ IsLeft paths.now marks.now path.now) }
{
    if is_left(paths, marks, path) {
        None
    } else {
        Some(path)
    }
}
