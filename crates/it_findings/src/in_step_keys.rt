//! What is found in the keys of a step.
ghost use Rattle.std.specs.Prelude.{◌≡◌, ◌↔◌, None, IfOk, IsTrue};
ghost use Rattle.std.specs.FinMap.{get};
ghost use Rattle.std.specs.Set.{distinct_count};
ghost use Rattle.std.specs.Str.{bytes_eq};
ghost use Rattle.it_findings.specs.Joined.{Joined, Said};
ghost use Rattle.it_findings.specs.StepKeyFindings.{RepeatedKeyFindings, StepKeyFindings};
ghost use Rattle.it_findings.specs.StepKeyFindings.{ThresholdFindings, UnknownKeyFindings};

use crate::finding::{Finding, StepPlace};
use crate::one::one;
use it_base::text::Text;
use it_docs::layout::Layout;
use it_docs::step::Step;
use std::alloc::{AllocError, Global};
use std::collections::BTreeSet;

/// What is found in the keys of the step at a place: in its threshold, then the ids without a key
/// object, and then the repeated ids, each in its order.
///
/// # Errors
///
/// `AllocError` where memory was refused.
pub(crate) fn step_key_findings(
    alloc: Global,
    layout: &Layout,
    at: &StepPlace,
    step: &Step,
) -> Result<Vec<Finding>, AllocError>
    ensures { IfOk result (λ found. StepKeyFindings layout.now at.now step.now found.items) }
{
    let ids = step.pubkeys.as_slice();
    let mut found = threshold_findings(alloc, at, step)?;
    let mut unknown = unknown_keys(alloc, layout, at, ids)?;
    let mut repeated = repeated_keys(alloc, at, ids)?;
    found.append(&mut unknown)?;
    found.append(&mut repeated)?;
    Ok(found)
}

/// What is found in the threshold of a step.
fn threshold_findings(
    alloc: Global,
    at: &StepPlace,
    step: &Step,
) -> Result<Vec<Finding>, AllocError>
    ensures { IfOk result (λ found. ThresholdFindings at.now step.now found.items) }
{
    let threshold = step.threshold;
    let ids = id_count(alloc, step.pubkeys.as_slice())?;
    if threshold <= ids {
        return Ok(Vec::new(alloc));
    }
    let step = at.copy(alloc)?;
    let finding = Finding::HighThreshold {
        step,
        threshold,
        ids,
    };
    one(alloc, finding)
}

/// How many different ids there are.
fn id_count(alloc: Global, ids: &[Text]) -> Result<u64, AllocError>
    ensures { IfOk result (λ count. count ≡ distinct_count bytes_eq ids.now) }
{
    let mut seen = BTreeSet::new(alloc);
    for id in ids {
        seen.insert(id.as_str())?;
    }
    Ok(seen.len() as u64)
}

/// The ids for which the layout has no key object, in order.
fn unknown_keys(
    alloc: Global,
    layout: &Layout,
    at: &StepPlace,
    ids: &[Text],
) -> Result<Vec<Finding>, AllocError>
    ensures { IfOk result (λ found.
        Joined (UnknownKeyFindings layout.now at.now) ids.now found.items) }
{
    let mut found = Vec::new(alloc);
    for (place, id) in ids.iter().enumerate() {
        let mut here = unknown_key(alloc, layout, at, place, id)?;
        found.append(&mut here)?;
    }
    Ok(found)
}

fn unknown_key(
    alloc: Global,
    layout: &Layout,
    at: &StepPlace,
    place: usize,
    id: &Text,
) -> Result<Vec<Finding>, AllocError>
    ensures { IfOk result (λ found.
        UnknownKeyFindings layout.now at.now place id.now found.items) }
{
    if !has_no_object(layout, id) {
        return Ok(Vec::new(alloc));
    }
    let step = at.copy(alloc)?;
    let id = Text::copy(alloc, id.as_str())?;
    one(alloc, Finding::UnknownKey { step, place, id })
}

fn has_no_object(layout: &Layout, id: &Text) -> bool
    ensures { IsTrue result ↔ (get layout.now.keys id.now ≡ None) }
{
    match layout.keys.get(id.as_str()) {
        Some(_) => false,
        None => true,
    }
}

/// The ids that stand at an earlier place as well, in order.
fn repeated_keys(alloc: Global, at: &StepPlace, ids: &[Text]) -> Result<Vec<Finding>, AllocError>
    ensures { IfOk result (λ found.
        Joined (RepeatedKeyFindings ids.now at.now) ids.now found.items) }
{
    let mut found = Vec::new(alloc);
    let mut seen = BTreeSet::new(alloc);
    for (place, id) in ids.iter().enumerate() {
        let is_new = seen.insert(id.as_str())?;
        let mut here = repeated_key(alloc, at, place, id, is_new)?;
        found.append(&mut here)?;
    }
    Ok(found)
}

fn repeated_key(
    alloc: Global,
    at: &StepPlace,
    place: usize,
    id: &Text,
    is_new: bool,
) -> Result<Vec<Finding>, AllocError>
    ensures { IfOk result (λ found.
        Said (¬ IsTrue is_new) (Finding.RepeatedKey at.now place id.now) found.items) }
{
    if is_new {
        return Ok(Vec::new(alloc));
    }
    let step = at.copy(alloc)?;
    let id = Text::copy(alloc, id.as_str())?;
    one(alloc, Finding::RepeatedKey { step, place, id })
}
