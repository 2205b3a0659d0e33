//! The paths that rules leave free.
ghost use Rattle.std.specs.Prelude.{length, map, IfOk};
ghost use Rattle.it_rules.specs.Item.{links_of, recorded_of};
ghost use Rattle.it_rules.specs.Rules.{AreFree, NamesDiffer};

use crate::item::{Item, Named, Subject};
use crate::listed_artifacts::ListedArtifacts;
use crate::marks::{consume, unmarked};
use it_docs::rule::{Rule, Side};
use std::alloc::{AllocError, Global};

/// The paths on a `side` of an item that none of the rules claims (in-toto 1.0, section 4.3.3):
/// those that are free for a rule that comes after these, in the order of their bytes.
///
/// `links` are the items that `MATCH` rules may name, under names that all differ.
///
/// # Errors
///
/// `AllocError` where memory was refused.
pub fn free_paths<'a>(
    alloc: Global,
    side: Side,
    rules: &[Rule],
    item: &Item<'a>,
    links: &[Named],
) -> Result<Vec<&'a str>, AllocError>
    requires { NamesDiffer (links_of links.now) }
    ensures { IfOk result (λ paths. AreFree rules.now side (recorded_of item.now)
        (links_of links.now) (length rules.now) (map (λ path. path.now) paths.items)) }
{
    let ListedArtifacts { paths, digests } = ListedArtifacts::of(alloc, item.artifacts_on(side))?;
    let digests = digests.as_slice();
    let subject = Subject {
        side,
        item,
        digests,
        links,
    };
    let mut marks = vec![in alloc; false; paths.len()]?;
    for rule in rules {
        consume(alloc, &paths, &mut marks, rule, &subject)?;
    }
    let left = unmarked(alloc, &paths, &marks)?;
    Ok(left)
}
