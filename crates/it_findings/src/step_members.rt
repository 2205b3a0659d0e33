//! What is found in the members of the steps and the inspections of a layout.
ghost use Rattle.std.specs.Prelude.{IfOk, codes};
ghost use Rattle.json.specs.Value.{items_view};
ghost use Rattle.it_borrowed.specs.Tree.{as_data, data_of_items};
ghost use Rattle.it_findings.specs.Joined.{Joined};
ghost use Rattle.it_findings.specs.Members.{InspectionMembers, StepMembers};
ghost use Rattle.it_findings.specs.NullKeys.{list_at, listed};

use crate::member_finding::MemberFinding;
use crate::null_keys::items_at;
use crate::place::Place;
use crate::unread::unread_members;
use json::Value;
use std::alloc::{AllocError, Global};

/// What is found in the steps of a layout, in order.
///
/// # Errors
///
/// `AllocError` where memory was refused.
pub(crate) fn steps_members(
    alloc: Global,
    document: &Value<'_>,
) -> Result<Vec<MemberFinding>, AllocError>
    ensures { IfOk result (λ found.
        Joined StepMembers (list_at (codes "steps") (as_data document.now)) found.items) }
{
    match items_at(document, "steps") {
        Some(steps) => each_step(alloc, steps),
        None => Ok(Vec::new(alloc)),
    }
}

fn each_step(alloc: Global, steps: &Vec<Value<'_>>) -> Result<Vec<MemberFinding>, AllocError>
    ensures { IfOk result (λ found.
        Joined StepMembers (listed (data_of_items (items_view steps.now.items))) found.items) }
{
    let mut found = Vec::new(alloc);
    for (place, step) in steps.iter().enumerate() {
        let mut here = unread_members(alloc, &Place::Step(place), step)?;
        found.append(&mut here)?;
    }
    Ok(found)
}

/// What is found in the inspections of a layout, in order.
///
/// # Errors
///
/// `AllocError` where memory was refused.
pub(crate) fn inspections_members(
    alloc: Global,
    document: &Value<'_>,
) -> Result<Vec<MemberFinding>, AllocError>
    ensures { IfOk result (λ found.
        Joined InspectionMembers (list_at (codes "inspect") (as_data document.now)) found.items) }
{
    match items_at(document, "inspect") {
        Some(inspections) => each_inspection(alloc, inspections),
        None => Ok(Vec::new(alloc)),
    }
}

fn each_inspection(
    alloc: Global,
    inspections: &Vec<Value<'_>>,
) -> Result<Vec<MemberFinding>, AllocError>
    ensures { IfOk result (λ found.
        Joined InspectionMembers (listed (data_of_items (items_view inspections.now.items)))
        found.items) }
{
    let mut found = Vec::new(alloc);
    for (place, inspection) in inspections.iter().enumerate() {
        let mut here = unread_members(alloc, &Place::Inspection(place), inspection)?;
        found.append(&mut here)?;
    }
    Ok(found)
}
