//! Artifact rules and their texts (in-toto 1.0, section 4.3.3).
ghost use Rattle.std.specs.Prelude.{◌≡◌, ◌∷◌, [], IfOk, map, string_bytes};
ghost use Rattle.it_borrowed.specs.Tree.{as_data};
ghost use Rattle.it_base.specs.Finds.{Finds};
ghost use Rattle.it_docs.specs.Rule.{IsRule, RuleOf, is_keyword as is_this_keyword};
ghost use Rattle.it_docs.specs.inside.RuleAnswer.{is_match as is_match_of, match_of};
ghost use Rattle.it_docs.specs.inside.RuleAnswer.{prefixed_of, rule_of};
ghost use Rattle.it_docs.specs.inside.RuleAnswer.{short_of, side_of as side_at};

use it_base::sequence::Sequence;
use it_base::text::Text;
use it_borrowed::parts::FromBorrowed;
use it_glob::Pattern;
use json::Value;
use std::alloc::{AllocError, Global};

/// A side of a step: what went in, or what came out.
#[derive(Clone, Copy, Debug, PartialEq, Eq)]
pub enum Side {
    /// What the step used.
    Materials,
    /// What the step made.
    Products,
}

/// A rule on the artifacts of one side.
#[derive(Drop)]
pub enum Rule {
    /// `MATCH`: consumes what a named step recorded with the same digests.
    Match {
        /// The pattern for what follows the source prefix.
        pattern: Pattern,
        /// The prefix on the judged side; empty where the rule has none.
        source_prefix: Text,
        /// The side of the named step.
        side: Side,
        /// The prefix in the named step; empty where the rule has none.
        target_prefix: Text,
        /// The name of the step.
        from: Text,
    },
    /// `CREATE`: consumes products that are not materials.
    Create(Pattern),
    /// `DELETE`: consumes materials that are not products.
    Delete(Pattern),
    /// `MODIFY`: consumes what changed.
    Modify(Pattern),
    /// `ALLOW`: consumes what matches.
    Allow(Pattern),
    /// `DISALLOW`: fails where something unconsumed matches.
    Disallow(Pattern),
    /// `REQUIRE`: fails unless this path, taken literally, is unconsumed.
    Require(Text),
}

/// The prefixes of a `MATCH`, each empty where the rule has none.
#[derive(Drop)]
struct Prefixes<'a> {
    /// The one on the judged side.
    source: &'a str,
    /// The one in the named step.
    target: &'a str,
}

impl<'a> Prefixes<'a> {
    fn of(source: &'a str, target: &'a str) -> Prefixes<'a>
        ensures source { result.source.now ≡ source.now }
        ensures target { result.target.now ≡ target.now }
    {
        Prefixes { source, target }
    }
}

impl FromBorrowed for Rule {
    ghost is_of = { IsRule };

    /// Reads a rule from a list of texts.
    fn from_borrowed(alloc: Global, value: &Value<'_>) -> Result<Option<Rule>, AllocError> {
        match Sequence::<Text>::from_borrowed(alloc, value)? {
            None => Ok(None),
            Some(texts) => found_rule(alloc, texts.as_slice()),
        }
    }
}

/// Reads a rule from its texts: `MATCH` pattern [`IN` prefix] `WITH` side [`IN` prefix] `FROM`
/// step, or one of `CREATE`, `DELETE`, `MODIFY`, `ALLOW`, `DISALLOW` with a pattern, or `REQUIRE`
/// with a path.
///
/// The result is the rule, or `None` where the texts are not a rule. Keywords are recognised only
/// at their places, without regard to ASCII case.
///
/// # Errors
///
/// `AllocError` where memory was refused.
pub fn read_rule(alloc: Global, texts: &[String]) -> Result<Option<Rule>, AllocError>
    ensures { IfOk result (Finds (RuleOf (map string_bytes texts.now))) }
{
    let texts = texts_of(alloc, texts)?;
    found_rule(alloc, texts.as_slice())
}

/// Copies of the texts.
#[tactic(auto, using(std::proofs::lemmas::List::map_more))]
fn texts_of(alloc: Global, strings: &[String]) -> Result<Vec<Text>, AllocError>
    ensures { IfOk result (λ texts. texts.items ≡ map string_bytes strings.now) }
{
    let mut texts = Vec::new(alloc);
    for string in strings {
        texts.push(Text::copy(alloc, string.as_str())?)?;
    }
    Ok(texts)
}

/// The rule that the texts form, or `None`.
fn found_rule(alloc: Global, texts: &[Text]) -> Result<Option<Rule>, AllocError>
    ensures { IfOk result (Finds (RuleOf texts.now)) }
{
    rule_from(alloc, texts)
}

#[tactic(auto, unfolding(crate::specs::inside::RuleAnswer::rule_of))]
fn rule_from(alloc: Global, texts: &[Text]) -> Result<Option<Rule>, AllocError>
    ensures { IfOk result (λ found. found ≡ rule_of texts.now) }
{
    match texts {
        [word, operand] => short_rule(alloc, word, operand),
        [word, pattern, with, side, from, step] => {
            if !is_match(word, with, from) {
                return Ok(None);
            }
            match_rule(alloc, pattern, &Prefixes::of("", ""), side, step)
        }
        _ => prefixed_match(alloc, texts),
    }
}

/// The `MATCH` with one or both prefixes that the texts form, or `None`.
#[tactic(auto, unfolding(crate::specs::inside::RuleAnswer::prefixed_of))]
fn prefixed_match(alloc: Global, texts: &[Text]) -> Result<Option<Rule>, AllocError>
    ensures { IfOk result (λ found. found ≡ prefixed_of texts.now) }
{
    match texts {
        [word, pattern, third, fourth, fifth, sixth, from, step] => {
            if is_keyword(third, "IN") && is_match(word, fifth, from) {
                let prefixes = Prefixes::of(fourth.as_str(), "");
                match_rule(alloc, pattern, &prefixes, sixth, step)
            } else if is_keyword(fifth, "IN") && is_match(word, third, from) {
                let prefixes = Prefixes::of("", sixth.as_str());
                match_rule(alloc, pattern, &prefixes, fourth, step)
            } else {
                Ok(None)
            }
        }
        [
            word,
            pattern,
            within,
            source,
            with,
            side,
            within_target,
            target,
            from,
            step,
        ] => {
            let in_both = is_keyword(within, "IN") && is_keyword(within_target, "IN");
            if !(in_both && is_match(word, with, from)) {
                return Ok(None);
            }
            let prefixes = Prefixes::of(source.as_str(), target.as_str());
            match_rule(alloc, pattern, &prefixes, side, step)
        }
        _ => Ok(None),
    }
}

fn is_keyword(text: &Text, keyword: &str) -> bool
    ensures { result ≡ is_this_keyword keyword.now text.now }
{
    text.as_str().eq_ignore_ascii_case(keyword)
}

fn is_match(word: &Text, with: &Text, from: &Text) -> bool
    ensures { result ≡ is_match_of word.now with.now from.now }
{
    is_keyword(word, "MATCH") && is_keyword(with, "WITH") && is_keyword(from, "FROM")
}

#[tactic(auto, unfolding(crate::specs::inside::RuleAnswer::side_of))]
fn side_of(word: &Text) -> Option<Side>
    ensures { result ≡ side_at word.now }
{
    if is_keyword(word, "MATERIALS") {
        Some(Side::Materials)
    } else if is_keyword(word, "PRODUCTS") {
        Some(Side::Products)
    } else {
        None
    }
}

#[tactic(auto, unfolding(crate::specs::inside::RuleAnswer::match_of))]
fn match_rule(
    alloc: Global,
    pattern: &Text,
    prefixes: &Prefixes,
    side: &Text,
    step: &Text,
) -> Result<Option<Rule>, AllocError>
    ensures { IfOk result (λ found. found
        ≡ match_of pattern.now prefixes.now.source.now side.now prefixes.now.target.now step.now) }
{
    let Some(side) = side_of(side) else {
        return Ok(None);
    };
    Ok(Some(Rule::Match {
        pattern: Pattern::read(alloc, pattern.as_str())?,
        source_prefix: Text::copy(alloc, prefixes.source)?,
        side,
        target_prefix: Text::copy(alloc, prefixes.target)?,
        from: Text::copy(alloc, step.as_str())?,
    }))
}

#[tactic(auto, unfolding(crate::specs::inside::RuleAnswer::short_of))]
fn short_rule(alloc: Global, word: &Text, operand: &Text) -> Result<Option<Rule>, AllocError>
    ensures { IfOk result (λ found. found ≡ short_of word.now operand.now) }
{
    let text = operand.as_str();
    let rule = if is_keyword(word, "CREATE") {
        Rule::Create(Pattern::read(alloc, text)?)
    } else if is_keyword(word, "DELETE") {
        Rule::Delete(Pattern::read(alloc, text)?)
    } else if is_keyword(word, "MODIFY") {
        Rule::Modify(Pattern::read(alloc, text)?)
    } else if is_keyword(word, "ALLOW") {
        Rule::Allow(Pattern::read(alloc, text)?)
    } else if is_keyword(word, "DISALLOW") {
        Rule::Disallow(Pattern::read(alloc, text)?)
    } else if is_keyword(word, "REQUIRE") {
        Rule::Require(Text::copy(alloc, text)?)
    } else {
        return Ok(None);
    };
    Ok(Some(rule))
}
