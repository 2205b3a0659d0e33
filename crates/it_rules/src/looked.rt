//! The links that a rule looks at.
ghost use Rattle.std.specs.Prelude.{◌≡◌, ◌↔◌, List, ℕ, MatchOption, Contains};
ghost use Rattle.it_docs.specs.declared.rule.Side.{Side};
ghost use Rattle.it_rules.specs.Item.{Recorded, links_of, recorded_of};
ghost use Rattle.it_rules.specs.Rules.{Claims, NamesDiffer};

use crate::item::Named;
use it_docs::rule::Rule;
use std::slice;

/// The links that a rule looks at: for a `MATCH`, only the one that it names. So the name is looked
/// up once per rule, not once per path. Takes no memory.
pub fn looked_at<'a, 'b>(rule: &Rule, links: &'b [Named<'a>]) -> &'b [Named<'a>]
    requires { NamesDiffer (links_of links.now) }
    ensures differ { NamesDiffer (links_of result.now) }
    ensures same { (side : Side) (item : Recorded) (path : List ℕ)
        → Claims rule.now side item (links_of result.now) path
        ↔ Claims rule.now side item (links_of links.now) path }
{
    match rule {
        Rule::Match { from, .. } => match find_link(links, from.as_str()) {
            Some(link) => slice::from_ref(link),
            None => &links[..0],
        },
        Rule::Create(_)
        | Rule::Delete(_)
        | Rule::Modify(_)
        | Rule::Allow(_)
        | Rule::Disallow(_)
        | Rule::Require(_) => links,
    }
}

/// The link of a name.
pub(crate) fn find_link<'a, 'b>(links: &'b [Named<'a>], name: &str) -> Option<&'b Named<'a>>
    ensures { MatchOption result
        ((item : Recorded) → ¬ Contains (links_of links.now) (name.now, item))
        (λ link. (link.now.name.now ≡ name.now)
        × Contains (links_of links.now) (name.now, recorded_of link.now.item)) }
{
    for link in links {
        if link.name == name {
            return Some(link);
        }
    }
    None
}
