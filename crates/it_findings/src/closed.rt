//! Whether a list of artifact rules is closed.
ghost use Rattle.std.specs.Prelude.{◌≡◌, ◌↔◌, ◌⊎◌, All, IsTrue};
ghost use Rattle.std.specs.Str.{byte};
ghost use Rattle.it_findings.specs.Closed.{Closes, IsClosed, IsWild, Opens, TakesAll};

use crate::finding::RuleList;
use it_docs::rule::Rule;
use it_glob::Pattern;

/// Whether a list of rules lets no path through that no rule names: a `DISALLOW` of every path
/// stands in it, before any rule that lets paths through whatever their names are. Takes no memory.
pub(crate) fn is_closed(list: &RuleList, rules: &[Rule]) -> bool
    ensures { IsTrue result ↔ IsClosed list.now rules.now }
{
    let mut rest = rules;
    while let Some((rule, after)) = rest.split_first() {
        if closes(rule) {
            return true;
        }
        if opens(list, rule) {
            return false;
        }
        rest = after;
    }
    false
}

/// Whether the rule forbids every path that is left.
fn closes(rule: &Rule) -> bool
    ensures { IsTrue result ↔ Closes rule.now }
{
    match rule {
        Rule::Disallow(pattern) => takes_all(pattern),
        _ => false,
    }
}

/// Whether the rule lets paths through whatever their names are.
fn opens(list: &RuleList, rule: &Rule) -> bool
    ensures { IsTrue result ↔ Opens list.now rule.now }
{
    match (list, rule) {
        (_, Rule::Allow(pattern)) => is_wild(pattern),
        (RuleList::Deliver, Rule::Create(pattern)) => is_wild(pattern),
        _ => false,
    }
}

/// Whether the pattern is of stars alone, one or more.
fn takes_all(pattern: &Pattern) -> bool
    ensures { IsTrue result ↔ TakesAll pattern.now }
{
    let text = pattern.text().as_bytes();
    !text.is_empty() && is_of_stars(text)
}

fn is_of_stars(text: &[u8]) -> bool
    ensures { IsTrue result ↔ All (λ c. c ≡ byte "*") text.now }
{
    text.iter().all(|c| *c == b'*')
}

/// Whether the pattern has nothing but stars and question marks.
fn is_wild(pattern: &Pattern) -> bool
    ensures { IsTrue result ↔ IsWild pattern.now }
{
    is_of_wild_cards(pattern.text().as_bytes())
}

fn is_of_wild_cards(text: &[u8]) -> bool
    ensures { IsTrue result ↔ All (λ c. (c ≡ byte "*") ⊎ (c ≡ byte "?")) text.now }
{
    text.iter().all(|c| *c == b'*' || *c == b'?')
}
