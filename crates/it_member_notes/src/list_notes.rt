//! The notes on a list of artifact rules.
ghost use Rattle.std.specs.Prelude.{◌≡◌, ◌↔◌, All, IfOk, IsTrue};
ghost use Rattle.it_findings.specs.RuleFindings.{HasInspection, HasStep};
ghost use Rattle.it_member_notes.specs.RuleListNotes.{EndsOpen, IsDisallow, IsOfRules};
ghost use Rattle.it_member_notes.specs.inside.NamedLayout.{AreNamesOf};

use crate::named_layout::NamedLayout;
use crate::rule_list_note::RuleListNote;
use it_base::text::Text;
use it_docs::layout::Layout;
use it_docs::rule::Rule;
use std::alloc::{AllocError, Global};

/// The notes on a list of artifact rules that may take from the steps and the inspections of the
/// `layout`, as those of its steps and inspections and the policy's rules on what is delivered do:
/// on each rule in order, and then on the end of the list. Each note is true.
///
/// # Errors
///
/// `AllocError` where memory was refused.
pub fn rule_list_notes(
    alloc: Global,
    layout: &Layout,
    rules: &[Rule],
) -> Result<Vec<RuleListNote>, AllocError>
    ensures { IfOk result (λ notes. All (IsOfRules layout.now rules.now) notes.items) }
{
    let named = NamedLayout::of(alloc, layout)?;
    let notes = notes_on(alloc, &named, rules)?;
    Ok(notes)
}

/// The same, where the names in the layout are known.
pub(crate) fn notes_on(
    alloc: Global,
    named: &NamedLayout,
    rules: &[Rule],
) -> Result<Vec<RuleListNote>, AllocError>
    requires { AreNamesOf named.now.layout.now named.now.names }
    ensures { IfOk result (λ notes. All (IsOfRules named.now.layout.now rules.now) notes.items) }
{
    let mut notes = Vec::new(alloc);
    for (place, rule) in rules.iter().enumerate() {
        if let Rule::Match { from, .. } = rule {
            if !is_in(named, from) {
                notes.push(match_from_no_step(alloc, place, from)?)?;
            }
        }
    }
    if ends_open(rules) {
        notes.push(RuleListNote::NoDisallowAtEnd)?;
    }
    Ok(notes)
}

fn match_from_no_step(alloc: Global, rule: usize, name: &Text) -> Result<RuleListNote, AllocError>
    ensures { IfOk result (λ note. note ≡ RuleListNote.MatchFromNoStep rule name.now) }
{
    Ok(RuleListNote::MatchFromNoStep {
        rule,
        name: Text::copy(alloc, name.as_str())?,
    })
}

/// Whether there are rules, and the last is not a `DISALLOW`.
pub fn ends_open(rules: &[Rule]) -> bool
    ensures { IsTrue result → EndsOpen rules.now }
{
    match rules.split_last() {
        Some((last, _front)) => !is_disallow(last),
        None => false,
    }
}

fn is_disallow(rule: &Rule) -> bool
    ensures { IsTrue result ↔ IsDisallow rule.now }
{
    matches!(rule, Rule::Disallow(_))
}

/// Whether a step or an inspection of the layout has the name.
fn is_in(named: &NamedLayout, name: &Text) -> bool
    requires { AreNamesOf named.now.layout.now named.now.names }
    ensures steps { HasStep named.now.layout.now name.now → IsTrue result }
    ensures inspections { HasInspection named.now.layout.now name.now → IsTrue result }
{
    named.names.get(name.as_str()).is_some()
}
