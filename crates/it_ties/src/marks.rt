//! Marks on the paths of products that rules tie to a step.
ghost use Rattle.std.specs.Prelude.{◌≡◌, IfOk, OnOk, length};
ghost use Rattle.it_rules.specs.Item.{links_of, recorded_of};
ghost use Rattle.it_rules.specs.Paths.{ArePaths, ArePathsOf};
ghost use Rattle.it_rules.specs.Rules.{NamesDiffer};
ghost use Rattle.it_ties.specs.inside.Marking.{AreMarkedBy, AreTied};

use crate::ties::ties;
use it_docs::rule::{Rule, Side};
use it_docs::step::Step;
use it_rules::claims::claims;
use it_rules::item::{Item, Named};
use it_rules::looked::looked_at;
use it_rules::reach::claimed_range;
use std::alloc::{AllocError, Global};

/// What rules tie paths by.
#[derive(Drop)]
pub(crate) struct Tying<'s, 'i, 'a, 'l, 'n> {
    /// The steps that a path can be tied to.
    pub steps: &'s [Step],
    /// The item that recorded the paths as products.
    pub item: &'i Item<'a>,
    /// The items that `MATCH` rules may name.
    pub links: &'l [Named<'n>],
}

/// A mark for each of the `paths`, which are those of the item's products: whether the rules tie
/// it. A rule comes before those after it, so the last one marks first.
pub(crate) fn tied_marks(
    alloc: Global,
    tying: &Tying,
    rules: &[Rule],
    paths: &[&str],
) -> Result<Vec<bool>, AllocError>
    requires names { NamesDiffer (links_of tying.now.links.now) }
    requires paths { ArePathsOf tying.now.item.now.products.now paths.now }
    ensures lengths { IfOk result (λ tied. length tied.items ≡ length paths.now) }
    ensures tied { IfOk result (λ tied. AreTied tying.now.steps.now rules.now
        (recorded_of tying.now.item.now) (links_of tying.now.links.now) paths.now tied.items) }
{
    let mut tied = vec![in alloc; false; paths.len()]?;
    let mut left = rules.len();
    while left > 0 {
        left -= 1;
        mark(alloc, tying, &rules[left], paths, &mut tied)?;
    }
    Ok(tied)
}

/// Sets the mark of each path that a rule claims: whether the rule ties it.
fn mark(
    alloc: Global,
    tying: &Tying,
    rule: &Rule,
    paths: &[&str],
    tied: &mut [bool],
) -> Result<(), AllocError>
    requires names { NamesDiffer (links_of tying.now.links.now) }
    requires paths { ArePaths paths.now }
    requires lengths { length tied.old ≡ length paths.now }
    ensures { OnOk result (AreMarkedBy tying.now.steps.now rule.now
        (recorded_of tying.now.item.now) (links_of tying.now.links.now) paths.now
        tied.old tied.new) }
{
    let is_tying = ties(tying.steps, rule);
    let (start, end) = claimed_range(alloc, rule, paths)?;
    let looked = looked_at(rule, tying.links);
    for place in start..end {
        if claims(
            alloc,
            rule,
            Side::Products,
            tying.item,
            looked,
            paths[place],
        )? {
            tied[place] = is_tying;
        }
    }
    Ok(())
}
