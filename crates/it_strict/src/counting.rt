//! Which findings in a layout count where a delivery is accepted.
ghost use Rattle.std.specs.Prelude.{◌↔◌, ◌≢◌, IfOk, IsTrue};
ghost use Rattle.std.specs.FinMap.{empty};
ghost use Rattle.it_rules.specs.Item.{artifacts_on};
ghost use Rattle.it_chain.specs.StepRules.{recorded_in};
ghost use Rattle.it_findings.specs.Joined.{Said};
ghost use Rattle.it_strict.specs.Counting.{AreCounting, Counts, HasPath, LayoutCounting};

use it_borrowed::document_text::DocumentText;
use it_chain::chain::StepResult;
use it_check::findings_in_layout;
use it_docs::layout::Layout;
use it_docs::rule::Side;
use it_findings::finding::{Finding, RuleList};
use it_findings::{layout_members, layout_nulls, no_thresholds};
use it_rules::item::Item;
use json::Scratch;
use std::alloc::{AllocError, Global};

/// What is found in a layout, which is read from this payload, and counts where its steps have
/// these records.
///
/// # Errors
///
/// `AllocError` where memory was refused.
pub(crate) fn counting_findings(
    alloc: Global,
    payload: &[u8],
    layout: &Layout,
    steps: &[StepResult],
) -> Result<Vec<Finding>, AllocError>
    ensures { IfOk result (λ counting.
        LayoutCounting payload.now layout.now steps.now counting.items) }
{
    let mut scratch = Scratch::new(alloc);
    let text = DocumentText::read(alloc, payload, &mut scratch)?;
    let members = layout_members(alloc, &text)?;
    let nulls = layout_nulls(alloc, &text)?;
    let places = no_thresholds(alloc, &text)?;
    let all = findings_in_layout(
        alloc,
        layout,
        members.as_slice(),
        nulls.as_slice(),
        places.as_slice(),
    )?;
    counting_of(alloc, all, steps)
}

/// The findings that count, in their order.
fn counting_of(
    alloc: Global,
    all: Vec<Finding>,
    steps: &[StepResult],
) -> Result<Vec<Finding>, AllocError>
    ensures { IfOk result (λ counting. AreCounting steps.now all.items counting.items) }
{
    let mut counting = Vec::new(alloc);
    for finding in all {
        let mut here = if_counting(alloc, finding, steps)?;
        counting.append(&mut here)?;
    }
    Ok(counting)
}

/// The finding alone where it counts, and otherwise none.
fn if_counting(
    alloc: Global,
    finding: Finding,
    steps: &[StepResult],
) -> Result<Vec<Finding>, AllocError>
    ensures { IfOk result (λ here. Said (Counts steps.now finding) finding here.items) }
{
    if !counts(&finding, steps) {
        return Ok(Vec::new(alloc));
    }
    let mut here = Vec::new(alloc);
    here.push(finding)?;
    Ok(here)
}

/// Whether a finding counts where the steps have these records.
fn counts(finding: &Finding, steps: &[StepResult]) -> bool
    ensures { IsTrue result ↔ Counts steps.now finding.now }
{
    match finding {
        Finding::NoRules(RuleList::OfStep { place, side, .. }) => has_path(steps, *place, *side),
        _ => true,
    }
}

/// Whether the step at a place recorded some path on a side.
fn has_path(steps: &[StepResult], place: usize, side: Side) -> bool
    ensures { IsTrue result ↔ HasPath steps.now place side }
{
    match steps.get(place) {
        Some(step) => recorded_some(step, side),
        None => false,
    }
}

/// Whether a step recorded some path on a side.
fn recorded_some(step: &StepResult, side: Side) -> bool
    ensures { IsTrue result ↔ (artifacts_on side (recorded_in step.now) ≢ empty) }
{
    let item = Item {
        materials: &step.materials,
        products: &step.products,
    };
    !item.artifacts_on(side).is_empty()
}
