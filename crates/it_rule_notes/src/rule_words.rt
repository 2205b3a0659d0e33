//! The words of artifact rules (in-toto 1.0, section 4.3.3).
ghost use Rattle.std.specs.Prelude.{◌≡◌, ◌++◌, ◌∷◌, [], IfOk, OnOk, codes};
ghost use Rattle.it_docs.specs.Rule.{RuleOf};
ghost use Rattle.it_rule_notes.specs.RuleWords.{prefix_words, side_word, source_words};
ghost use Rattle.it_rule_notes.specs.RuleWords.{target_words, words_of_rule};

use it_base::sequence::Sequence;
use it_base::text::Text;
use it_docs::rule::{Rule, Side};
use it_glob::Pattern;
use std::alloc::{AllocError, Global};

/// The words of a rule, in the form of the standard (in-toto 1.0, section 4.3.3): its keywords in
/// capitals, and a prefix only where it is not empty.
///
/// # Errors
///
/// `AllocError` where memory was refused.
pub fn words_of(alloc: Global, rule: &Rule) -> Result<Sequence<Text>, AllocError>
    ensures are_words { IfOk result (λ words. words ≡ words_of_rule rule.now) }
    ensures is_rule { IfOk result (λ words. RuleOf words rule.now) }
{
    Ok(Sequence::from(written_rule(alloc, rule)?))
}

fn written_rule(alloc: Global, rule: &Rule) -> Result<Vec<Text>, AllocError>
    ensures { IfOk result (λ words. words.items ≡ words_of_rule rule.now) }
{
    match rule {
        Rule::Match {
            pattern,
            source_prefix,
            side,
            target_prefix,
            from,
        } => {
            let mut words = Vec::new(alloc);
            push_source(alloc, &mut words, pattern, source_prefix)?;
            push_target(alloc, &mut words, *side, target_prefix, from)?;
            Ok(words)
        }
        Rule::Create(pattern) => two_words(alloc, "CREATE", pattern.text()),
        Rule::Delete(pattern) => two_words(alloc, "DELETE", pattern.text()),
        Rule::Modify(pattern) => two_words(alloc, "MODIFY", pattern.text()),
        Rule::Allow(pattern) => two_words(alloc, "ALLOW", pattern.text()),
        Rule::Disallow(pattern) => two_words(alloc, "DISALLOW", pattern.text()),
        Rule::Require(path) => two_words(alloc, "REQUIRE", path.as_str()),
    }
}

fn two_words(alloc: Global, keyword: &str, operand: &str) -> Result<Vec<Text>, AllocError>
    ensures { IfOk result (λ words. words.items ≡ keyword.now ∷ operand.now ∷ []) }
{
    let mut words = Vec::new(alloc);
    push_word(alloc, &mut words, keyword)?;
    push_word(alloc, &mut words, operand)?;
    Ok(words)
}

/// Appends `MATCH`, the pattern, and the prefix on the judged side.
fn push_source(
    alloc: Global,
    words: &mut Vec<Text>,
    pattern: &Pattern,
    prefix: &Text,
) -> Result<(), AllocError>
    ensures { OnOk result (words.new.items
        ≡ words.old.items ++ source_words pattern.now prefix.now) }
{
    push_word(alloc, words, "MATCH")?;
    push_word(alloc, words, pattern.text())?;
    push_prefix(alloc, words, prefix.as_str())
}

/// Appends `WITH`, the side, the prefix in the named step, `FROM`, and the step's name.
fn push_target(
    alloc: Global,
    words: &mut Vec<Text>,
    side: Side,
    prefix: &Text,
    step: &Text,
) -> Result<(), AllocError>
    ensures { OnOk result (words.new.items
        ≡ words.old.items ++ target_words side prefix.now step.now) }
{
    push_word(alloc, words, "WITH")?;
    push_word(alloc, words, word_of(side))?;
    push_prefix(alloc, words, prefix.as_str())?;
    push_word(alloc, words, "FROM")?;
    push_word(alloc, words, step.as_str())
}

/// Appends `IN` and the prefix, or nothing if it is empty.
fn push_prefix(alloc: Global, words: &mut Vec<Text>, prefix: &str) -> Result<(), AllocError>
    ensures { OnOk result (words.new.items ≡ words.old.items ++ prefix_words prefix.now) }
{
    if prefix.is_empty() {
        return Ok(());
    }
    push_word(alloc, words, "IN")?;
    push_word(alloc, words, prefix)
}

fn push_word(alloc: Global, words: &mut Vec<Text>, word: &str) -> Result<(), AllocError>
    ensures { OnOk result (words.new.items ≡ words.old.items ++ word.now ∷ []) }
{
    words.push(Text::copy(alloc, word)?)?;
    Ok(())
}

fn word_of(side: Side) -> &'static str
    ensures { result.now ≡ side_word side }
{
    match side {
        Side::Materials => "MATERIALS",
        Side::Products => "PRODUCTS",
    }
}
