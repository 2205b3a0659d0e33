//! What is found in a layout.
ghost use Rattle.std.specs.Prelude.{IfOk, Some};
ghost use Rattle.it_findings.specs.Joined.{Joined};
ghost use Rattle.it_findings.specs.LayoutFindings.{InspectionFindings, LayoutFindings};
ghost use Rattle.it_findings.specs.LayoutFindings.{StepFindings, StepRuleFindings};
ghost use Rattle.it_findings.specs.RuleFindings.{ListFindings};
ghost use Rattle.it_findings.specs.declared.finding.RuleList.TheVariants as lists;

use crate::finding::{Finding, RuleList, StepPlace};
use crate::identity_findings::layout_identities;
use crate::in_rules::list_findings;
use crate::in_step_keys::step_key_findings;
use it_base::text::Text;
use it_docs::layout::Layout;
use it_docs::rule::Side;
use it_docs::step::{Inspection, Step};
use std::alloc::{AllocError, Global};

/// All that is found in a layout: on identities among its keys, in its steps, and then in its
/// inspections, each in its order.
///
/// # Errors
///
/// `AllocError` where memory was refused.
pub fn layout_findings(alloc: Global, layout: &Layout) -> Result<Vec<Finding>, AllocError>
    ensures { IfOk result (λ found. LayoutFindings layout.now found.items) }
{
    let mut found = layout_identities(alloc, layout)?;
    let mut steps = steps_findings(alloc, layout)?;
    let mut inspections = inspections_findings(alloc, layout)?;
    found.append(&mut steps)?;
    found.append(&mut inspections)?;
    Ok(found)
}

fn steps_findings(alloc: Global, layout: &Layout) -> Result<Vec<Finding>, AllocError>
    ensures { IfOk result
        (λ found. Joined (StepFindings layout.now) layout.now.steps found.items) }
{
    let mut found = Vec::new(alloc);
    for (place, step) in layout.steps.as_slice().iter().enumerate() {
        let mut here = step_findings(alloc, layout, place, step)?;
        found.append(&mut here)?;
    }
    Ok(found)
}

fn inspections_findings(alloc: Global, layout: &Layout) -> Result<Vec<Finding>, AllocError>
    ensures { IfOk result
        (λ found. Joined (InspectionFindings layout.now) layout.now.inspections found.items) }
{
    let mut found = Vec::new(alloc);
    for (place, inspection) in layout.inspections.as_slice().iter().enumerate() {
        let mut here = inspection_findings(alloc, layout, place, inspection)?;
        found.append(&mut here)?;
    }
    Ok(found)
}

/// What is found in the step at a place: in its keys, and then in its rules.
fn step_findings(
    alloc: Global,
    layout: &Layout,
    place: usize,
    step: &Step,
) -> Result<Vec<Finding>, AllocError>
    ensures { IfOk result (λ found. StepFindings layout.now place step.now found.items) }
{
    let at = StepPlace {
        place,
        name: Text::copy(alloc, step.name.as_str())?,
    };
    let mut found = step_key_findings(alloc, layout, &at, step)?;
    let mut of_rules = step_rule_findings(alloc, layout, place, step)?;
    found.append(&mut of_rules)?;
    Ok(found)
}

/// What is found in the rules of the step at a place.
fn step_rule_findings(
    alloc: Global,
    layout: &Layout,
    place: usize,
    step: &Step,
) -> Result<Vec<Finding>, AllocError>
    ensures { IfOk result (λ found. StepRuleFindings layout.now place step.now found.items) }
{
    let materials = RuleList::OfStep {
        place,
        name: Text::copy(alloc, step.name.as_str())?,
        side: Side::Materials,
    };
    let products = RuleList::OfStep {
        place,
        name: Text::copy(alloc, step.name.as_str())?,
        side: Side::Products,
    };
    let rules = step.expected_materials.as_slice();
    let mut found = list_findings(alloc, Some(layout), &materials, rules)?;
    let rules = step.expected_products.as_slice();
    let mut further = list_findings(alloc, Some(layout), &products, rules)?;
    found.append(&mut further)?;
    Ok(found)
}

/// What is found in the rules of the inspection at a place.
fn inspection_findings(
    alloc: Global,
    layout: &Layout,
    place: usize,
    inspection: &Inspection,
) -> Result<Vec<Finding>, AllocError>
    ensures { IfOk result (λ found.
        InspectionFindings layout.now place inspection.now found.items) }
{
    let materials = RuleList::OfInspection {
        place,
        name: Text::copy(alloc, inspection.name.as_str())?,
        side: Side::Materials,
    };
    let products = RuleList::OfInspection {
        place,
        name: Text::copy(alloc, inspection.name.as_str())?,
        side: Side::Products,
    };
    let rules = inspection.expected_materials.as_slice();
    let mut found = list_findings(alloc, Some(layout), &materials, rules)?;
    let rules = inspection.expected_products.as_slice();
    let mut further = list_findings(alloc, Some(layout), &products, rules)?;
    found.append(&mut further)?;
    Ok(found)
}
