//! What a judged artifact rule meets.
ghost use Rattle.std.specs.List.{slice_get};
ghost use Rattle.std.specs.Prelude.{◌≡◌, ◌++◌, ℕ, IfOk, IfSome, OnOk, Some, map};
ghost use Rattle.it_docs.specs.Rule.{RuleOf};
ghost use Rattle.it_docs.specs.declared.rule.Rule.TheVariants.{Disallow, Require};
ghost use Rattle.it_rules.specs.Item.{links_of};
ghost use Rattle.it_rules.specs.Rules.{AreSorted, NamesDiffer};
ghost use Rattle.it_rule_notes.specs.Met.{AreForbiddenBy, AreLeftAt, Judging, Meets};
ghost use Rattle.it_rule_notes.specs.Met.{consumed_form};
ghost use Rattle.it_rule_notes.specs.Met.{consumer_form, forbidden_form, met_form, others_form};
ghost use Rattle.it_rule_notes.specs.inside.JudgedRules.{judging_in};

use crate::judged::{Claim, JudgedRules, first_claim, free_before, stands};
use crate::line::{push_text, push_told};
use crate::rule_note::push_words;
use crate::rule_words::words_of;
use it_base::sequence::Sequence;
use it_base::text::Text;
use it_docs::rule::Rule;
use it_glob::Pattern;
use std::alloc::{AllocError, Global};

/// The most paths that a note on a rule names.
const MOST_PATHS: usize = 10;

/// What a rule met.
#[derive(Drop)]
pub enum Met {
    /// Paths that a `DISALLOW` forbids.
    Forbidden(ForbiddenPaths),
    /// The path of a `REQUIRE`, which an earlier rule consumed.
    Consumed(ConsumedPath),
    /// The path of a `REQUIRE`, which is not there.
    Absent(Text),
}

/// Paths that a rule forbids.
#[derive(Drop)]
pub struct ForbiddenPaths {
    /// At most the first ten, in byte order.
    pub paths: Sequence<Text>,
    /// Whether the rule forbids others too.
    pub others: bool,
}

/// A path that is there, and the rule that consumed it.
#[derive(Drop)]
pub struct ConsumedPath {
    /// The path.
    pub path: Text,
    /// The place in its list, from 0, of the rule that consumed it.
    pub index: usize,
    /// The words of that rule.
    pub words: Sequence<Text>,
}

/// What the rule at the index meets, where it is a `DISALLOW` or a `REQUIRE` that fails.
pub(crate) fn met_at(
    alloc: Global,
    judged: &JudgedRules,
    index: usize,
) -> Result<Option<Met>, AllocError>
    requires { NamesDiffer (links_of judged.now.links.now) }
    ensures { IfOk result (λ found. IfSome found (Meets (judging_in judged.now) index)) }
{
    match judged.rules.get(index) {
        Some(Rule::Disallow(pattern)) => forbidden(alloc, judged, index, pattern),
        Some(Rule::Require(path)) => required(alloc, judged, index, path.as_str()),
        _ => Ok(None),
    }
}

/// The paths that the `DISALLOW` of this pattern at the index forbids, where there are any.
fn forbidden(
    alloc: Global,
    judged: &JudgedRules,
    index: usize,
    pattern: &Pattern,
) -> Result<Option<Met>, AllocError>
    requires names { NamesDiffer (links_of judged.now.links.now) }
    requires rule { slice_get judged.now.rules.now index ≡ Some (Disallow pattern.now) }
    ensures { IfOk result (λ found. IfSome found (Meets (judging_in judged.now) index)) }
{
    let found = forbidden_paths(alloc, judged, index, pattern)?;
    if found.paths.as_slice().is_empty() {
        return Ok(None);
    }
    Ok(Some(Met::Forbidden(found)))
}

/// The first paths that the `DISALLOW` of this pattern at the index forbids.
fn forbidden_paths(
    alloc: Global,
    judged: &JudgedRules,
    index: usize,
    pattern: &Pattern,
) -> Result<ForbiddenPaths, AllocError>
    requires names { NamesDiffer (links_of judged.now.links.now) }
    requires rule { slice_get judged.now.rules.now index ≡ Some (Disallow pattern.now) }
    ensures { IfOk result (AreForbiddenBy (judging_in judged.now) index pattern.now) }
{
    let free = free_before(alloc, judged, index)?;
    let found = forbidden_among(alloc, free.as_slice(), pattern)?;
    Ok(found)
}

/// The first paths that a `DISALLOW` of this pattern forbids, if these are free before it.
fn forbidden_among(
    alloc: Global,
    free: &[&str],
    pattern: &Pattern,
) -> Result<ForbiddenPaths, AllocError>
    requires { AreSorted (map (λ path. path.now) free.now) }
    ensures { IfOk result (λ forbidden. (judging : Judging) (index : ℕ)
        → AreLeftAt judging index (map (λ path. path.now) free.now)
        → AreForbiddenBy judging index pattern.now forbidden) }
{
    let mut paths = Vec::new(alloc);
    for path in free {
        if !pattern.matches(path) {
            continue;
        }
        if paths.len() == MOST_PATHS {
            return Ok(ForbiddenPaths {
                paths: Sequence::from(paths),
                others: true,
            });
        }
        paths.push(Text::copy(alloc, path)?)?;
    }
    Ok(ForbiddenPaths {
        paths: Sequence::from(paths),
        others: false,
    })
}

/// Why the path of the `REQUIRE` at the index is not among those left to it.
fn required(
    alloc: Global,
    judged: &JudgedRules,
    index: usize,
    path: &str,
) -> Result<Option<Met>, AllocError>
    requires names { NamesDiffer (links_of judged.now.links.now) }
    requires rule { slice_get judged.now.rules.now index ≡ Some (Require path.now) }
    ensures { IfOk result (λ found. IfSome found (Meets (judging_in judged.now) index)) }
{
    if !stands(judged, path) {
        return Ok(Some(Met::Absent(Text::copy(alloc, path)?)));
    }
    let Some(claim) = first_claim(alloc, judged, index, path)? else {
        return Ok(None);
    };
    Ok(Some(Met::Consumed(consumed(alloc, path, &claim)?)))
}

fn consumed(alloc: Global, path: &str, claim: &Claim) -> Result<ConsumedPath, AllocError>
    ensures path { IfOk result (λ consumed. consumed.path ≡ path.now) }
    ensures index { IfOk result (λ consumed. consumed.index ≡ claim.now.index) }
    ensures words { IfOk result (λ consumed. RuleOf consumed.words claim.now.rule.now) }
{
    Ok(ConsumedPath {
        path: Text::copy(alloc, path)?,
        index: claim.index,
        words: words_of(alloc, claim.rule)?,
    })
}

/// Appends what was met, after where the rule stands.
pub(crate) fn push_met(text: &mut Vec<u8>, met: &Met) -> Result<(), AllocError>
    ensures { OnOk result (text.new.items ≡ text.old.items ++ met_form met.now) }
{
    match met {
        Met::Forbidden(forbidden) => push_forbidden(text, forbidden),
        Met::Consumed(consumed) => push_consumed(text, consumed),
        Met::Absent(path) => push_told(text, ": no artifact ", path, " is there\n"),
    }
}

fn push_forbidden(text: &mut Vec<u8>, forbidden: &ForbiddenPaths) -> Result<(), AllocError>
    ensures { OnOk result (text.new.items ≡ text.old.items ++ forbidden_form forbidden.now) }
{
    push_text(text, " met:")?;
    push_words(text, forbidden.paths.as_slice())?;
    push_text(text, others_of(forbidden.others))
}

fn others_of(others: bool) -> &'static str
    ensures { result.now ≡ others_form others }
{
    if others { " and others\n" } else { "\n" }
}

#[tactic(auto, unfolding(crate::specs::Met::consumed_form))]
fn push_consumed(text: &mut Vec<u8>, consumed: &ConsumedPath) -> Result<(), AllocError>
    ensures { OnOk result (text.new.items ≡ text.old.items ++ consumed_form consumed.now) }
{
    push_told(text, ": ", &consumed.path, " was consumed by rule ")?;
    push_consumer(text, consumed)
}

fn push_consumer(text: &mut Vec<u8>, consumed: &ConsumedPath) -> Result<(), AllocError>
    ensures { OnOk result (text.new.items ≡ text.old.items ++ consumer_form consumed.now) }
{
    let alloc = *text.allocator();
    let index = consumed.index;
    let number = format!(in alloc; "{index}:")?;
    push_text(text, number.as_str())?;
    push_words(text, consumed.words.as_slice())?;
    push_text(text, "\n")
}
