//! What is said of findings on rules.
ghost use Rattle.std.specs.Prelude.{◌≡◌, ◌++◌, OnOk, codes};
ghost use Rattle.it_check.specs.Pieces.{quoted};
ghost use Rattle.it_check.specs.RuleSentence.{closing_form, no_rules_sentence, on_list, on_rule};
ghost use Rattle.it_check.specs.RuleSentence.{open_rules_sentence, parameter_sentence, scope_form};
ghost use Rattle.it_check.specs.RuleSentence.{unknown_item_sentence};
ghost use Rattle.it_report.specs.Report.{side_form};

use crate::writing::{push_quoted, push_text, push_told, push_told_number};
use it_base::text::Text;
use it_docs::rule::Side;
use it_findings::finding::RuleList;
use it_report::side_text;
use std::alloc::AllocError;

/// Appends what is said of a list without rules.
pub(crate) fn push_no_rules(text: &mut Vec<u8>, list: &RuleList) -> Result<(), AllocError>
    ensures { OnOk result (text.new.items ≡ text.old.items ++ no_rules_sentence list.now) }
{
    let after = ", so that every path passes";
    push_on_list(text, "there are no rules on ", list, after)
}

/// Appends what is said of a list that is not closed.
pub(crate) fn push_open_rules(text: &mut Vec<u8>, list: &RuleList) -> Result<(), AllocError>
    ensures { OnOk result (text.new.items ≡ text.old.items ++ open_rules_sentence list.now) }
{
    push_on_list(text, "the rules on ", list, closing_words(list))
}

fn closing_words(list: &RuleList) -> &'static str
    ensures { result.now ≡ closing_form list.now }
{
    match list {
        RuleList::Deliver => {
            " are not closed: no DISALLOW * stands before the first ALLOW * or CREATE *"
        }
        RuleList::OfStep { .. } | RuleList::OfInspection { .. } => {
            " are not closed: no DISALLOW * stands before the first ALLOW *"
        }
    }
}

/// Appends what is said of a rule that takes from a name that no step and no inspection has.
#[tactic(auto, unfolding(crate::specs::RuleSentence::unknown_item_sentence))]
pub(crate) fn push_unknown_item(
    text: &mut Vec<u8>,
    list: &RuleList,
    place: usize,
    name: &Text,
) -> Result<(), AllocError>
    ensures { OnOk result
        (text.new.items ≡ text.old.items ++ unknown_item_sentence list.now place name.now) }
{
    push_on_rule(text, list, place)?;
    let after = ", and no step or inspection has that name";
    push_told(text, " takes from ", name, after)
}

/// Appends what is said of a rule with a parameter.
#[tactic(auto, unfolding(crate::specs::RuleSentence::parameter_sentence))]
pub(crate) fn push_parameter(
    text: &mut Vec<u8>,
    list: &RuleList,
    place: usize,
) -> Result<(), AllocError>
    ensures { OnOk result (text.new.items ≡ text.old.items ++ parameter_sentence list.now place) }
{
    push_on_rule(text, list, place)?;
    let words = " has a parameter in braces, which stands for itself here";
    push_text(text, words)
}

/// Appends the beginning of a sentence on the rule at a place of a list.
#[tactic(auto, unfolding(crate::specs::RuleSentence::on_rule))]
fn push_on_rule(text: &mut Vec<u8>, list: &RuleList, place: usize) -> Result<(), AllocError>
    ensures { OnOk result (text.new.items ≡ text.old.items ++ on_rule list.now place) }
{
    push_told_number(text, "rule ", place, " on ")?;
    push_scope(text, list)
}

/// Appends what the rules of a list are on, between two texts.
#[tactic(auto, unfolding(crate::specs::RuleSentence::on_list))]
fn push_on_list(
    text: &mut Vec<u8>,
    before: &str,
    list: &RuleList,
    after: &str,
) -> Result<(), AllocError>
    ensures { OnOk result
        (text.new.items ≡ text.old.items ++ on_list before.now list.now after.now) }
{
    push_text(text, before)?;
    push_scope(text, list)?;
    push_text(text, after)
}

/// Appends what the rules of a list are on.
#[tactic(auto, unfolding(crate::specs::RuleSentence::scope_form))]
fn push_scope(text: &mut Vec<u8>, list: &RuleList) -> Result<(), AllocError>
    ensures { OnOk result (text.new.items ≡ text.old.items ++ scope_form list.now) }
{
    match list {
        RuleList::Deliver => push_text(text, "what is delivered"),
        RuleList::OfStep { name, side, .. } => push_side(text, *side, " of step ", name),
        RuleList::OfInspection { name, side, .. } => {
            push_side(text, *side, " of inspection ", name)
        }
    }
}

fn push_side(text: &mut Vec<u8>, side: Side, item: &str, name: &Text) -> Result<(), AllocError>
    ensures { OnOk result (text.new.items ≡ text.old.items
        ++ (codes "the " ++ (side_form side ++ (item.now ++ quoted name.now)))) }
{
    push_text(text, "the ")?;
    push_text(text, side_text(side))?;
    push_text(text, item)?;
    push_quoted(text, name.as_str())
}
