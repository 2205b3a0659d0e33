//! The paths of products that are not tied to a step.
ghost use Rattle.std.specs.Prelude.{map, IfOk};
ghost use Rattle.it_rules.specs.Item.{links_of, recorded_of};
ghost use Rattle.it_rules.specs.Rules.{NamesDiffer};
ghost use Rattle.it_ties.specs.Ties.{AreUntied};

use crate::marks::{Tying, tied_marks};
use it_docs::rule::Rule;
use it_docs::step::Step;
use it_rules::item::{Item, Named};
use it_rules::marks::unmarked;
use it_rules::paths::paths_of;
use std::alloc::{AllocError, Global};

/// The paths of an item's products that no rule ties to one of the `steps`, in the order of their
/// bytes. A path is tied where the first of the rules that claims it (in-toto 1.0, section 4.3.3)
/// is a `MATCH` with the products of a step. A rule is tried only for the paths that begin with its
/// front.
///
/// `links` are the items that `MATCH` rules may name, under names that all differ.
///
/// # Errors
///
/// `AllocError` where memory was refused.
pub fn untied_paths<'a>(
    alloc: Global,
    steps: &[Step],
    rules: &[Rule],
    item: &Item<'a>,
    links: &[Named],
) -> Result<Vec<&'a str>, AllocError>
    requires { NamesDiffer (links_of links.now) }
    ensures { IfOk result (λ paths. AreUntied steps.now rules.now (recorded_of item.now)
        (links_of links.now) (map (λ path. path.now) paths.items)) }
{
    let tying = Tying { steps, item, links };
    let paths = paths_of(alloc, item.products)?;
    let tied = tied_marks(alloc, &tying, rules, &paths)?;
    let left = unmarked(alloc, &paths, &tied)?;
    Ok(left)
}
