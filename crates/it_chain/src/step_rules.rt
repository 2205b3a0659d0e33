//! The artifact rules of a layout's steps.
ghost use Rattle.std.specs.Prelude.{◌≡◌, IfOk, zip};
ghost use Rattle.it_rules.specs.Item.{links_of};
ghost use Rattle.it_rules.specs.Rules.{NamesDiffer};
ghost use Rattle.it_chain.specs.StepRules.{links_in, rules_on};
ghost use Rattle.it_chain.specs.inside.StepRules.{AreRuled, IsSideRuled};

use crate::chain::StepResult;
use crate::fault::here;
use crate::links::{item_of, links_to};
use crate::refusal::{ChainFault, ChainRefusal, RuleItem};
use it_base::text::Text;
use it_docs::rule::{Rule, Side};
use it_docs::step::Step;
use it_rules::item::Named;
use it_rules::rules::run_rules;
use std::alloc::{AllocError, Global};

/// Judges the rules of all steps over their records, for each step those on materials first, and
/// answers the refusal by the first that fails.
pub(crate) fn first_failed(
    alloc: Global,
    steps: &[Step],
    results: &[StepResult],
) -> Result<Option<ChainRefusal>, AllocError>
    requires { NamesDiffer (links_in results.now) }
    ensures { IfOk result (AreRuled (links_in results.now) (zip steps.now results.now)) }
{
    let links = links_to(alloc, results)?;
    let links = links.as_slice();
    for (step, found) in steps.iter().zip(results) {
        if let Some(refusal) = failed_on(alloc, step, Side::Materials, found, links)? {
            return Ok(Some(refusal));
        }
        if let Some(refusal) = failed_on(alloc, step, Side::Products, found, links)? {
            return Ok(Some(refusal));
        }
    }
    Ok(None)
}

/// The refusal by the first rule of a step that fails on a side of its record.
fn failed_on(
    alloc: Global,
    step: &Step,
    side: Side,
    found: &StepResult,
    links: &[Named],
) -> Result<Option<ChainRefusal>, AllocError>
    requires { NamesDiffer (links_of links.now) }
    ensures { IfOk result (IsSideRuled (links_of links.now) step.now side found.now) }
{
    match run_rules(
        alloc,
        side,
        rules_of_step(step, side),
        &item_of(found),
        links,
    )? {
        None => Ok(None),
        Some(fault) => Ok(Some(here(
            alloc,
            ChainFault::RuleFailed {
                item: RuleItem::Step(Text::copy(alloc, step.name.as_str())?),
                side,
                index: fault.index,
                path: fault.path,
            },
        ))),
    }
}

/// The rules that a step has for a side of its record (in-toto 1.0 section 4.3.1).
pub fn rules_of_step(step: &Step, side: Side) -> &[Rule]
    ensures { result.now ≡ rules_on side step.now }
{
    match side {
        Side::Materials => step.expected_materials.as_slice(),
        Side::Products => step.expected_products.as_slice(),
    }
}
