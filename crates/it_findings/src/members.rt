//! What is found in the members of a policy and a layout.
ghost use Rattle.std.specs.Prelude.{IfOk, codes};
ghost use Rattle.json.specs.Value.{items_view};
ghost use Rattle.it_borrowed.specs.Tree.{as_data, data_of_items};
ghost use Rattle.it_findings.specs.Joined.{Joined};
ghost use Rattle.it_findings.specs.Members.{BuilderMembers, ExpectationMembers, LayoutMembers};
ghost use Rattle.it_findings.specs.Members.{MembersOfLayout, MembersOfPolicy, OthersIn};
ghost use Rattle.it_findings.specs.Members.{PolicyMembers};
ghost use Rattle.it_findings.specs.NullKeys.{list_at, listed};

use crate::key_members::key_list_members;
use crate::member_finding::MemberFinding;
use crate::null_key::KeyList;
use crate::null_keys::items_at;
use crate::place::Place;
use crate::repeated::repeated_in;
use crate::step_members::{inspections_members, steps_members};
use crate::unread::unread_members;
use it_borrowed::document_text::DocumentText;
use it_repeats::root::Root;
use json::Value;
use std::alloc::{AllocError, Global};

/// What is found in the members of the document that is a policy: first those that come again, in
/// the order of the text, and then the others: in the policy itself, in its owners, and then in
/// each expectation and its builders in order. Nothing is found where the text is no document.
///
/// # Errors
///
/// `AllocError` where memory was refused.
pub fn policy_members(
    alloc: Global,
    text: &DocumentText<'_>,
) -> Result<Vec<MemberFinding>, AllocError>
    ensures { IfOk result (λ found. MembersOfPolicy text.now found.items) }
{
    let mut found = repeated_in(alloc, Root::Policy, text)?;
    let mut others = others_in_policy(alloc, text)?;
    found.append(&mut others)?;
    Ok(found)
}

/// What is found in the members of the document that is the body of a layout: first those that come
/// again, in the order of the text, and then the others: in the layout itself, in its keys, and
/// then in its steps and its inspections in order. Nothing is found where the text is no document.
///
/// # Errors
///
/// `AllocError` where memory was refused.
pub fn layout_members(
    alloc: Global,
    text: &DocumentText<'_>,
) -> Result<Vec<MemberFinding>, AllocError>
    ensures { IfOk result (λ found. MembersOfLayout text.now found.items) }
{
    let mut found = repeated_in(alloc, Root::Layout, text)?;
    let mut others = others_in_layout(alloc, text)?;
    found.append(&mut others)?;
    Ok(found)
}

fn others_in_policy(
    alloc: Global,
    text: &DocumentText<'_>,
) -> Result<Vec<MemberFinding>, AllocError>
    ensures { IfOk result (λ found. OthersIn PolicyMembers text.now found.items) }
{
    match text.document() {
        Some(document) => members_in_policy(alloc, document),
        None => Ok(Vec::new(alloc)),
    }
}

fn others_in_layout(
    alloc: Global,
    text: &DocumentText<'_>,
) -> Result<Vec<MemberFinding>, AllocError>
    ensures { IfOk result (λ found. OthersIn LayoutMembers text.now found.items) }
{
    match text.document() {
        Some(document) => members_in_layout(alloc, document),
        None => Ok(Vec::new(alloc)),
    }
}

fn members_in_policy(alloc: Global, document: &Value<'_>) -> Result<Vec<MemberFinding>, AllocError>
    ensures { IfOk result (λ found. PolicyMembers (as_data document.now) found.items) }
{
    let mut found = unread_members(alloc, &Place::Policy, document)?;
    let mut of_owners = key_list_members(alloc, KeyList::Owners, document, "owners")?;
    let mut of_expectations = expectations_members(alloc, document)?;
    found.append(&mut of_owners)?;
    found.append(&mut of_expectations)?;
    Ok(found)
}

fn members_in_layout(alloc: Global, document: &Value<'_>) -> Result<Vec<MemberFinding>, AllocError>
    ensures { IfOk result (λ found. LayoutMembers (as_data document.now) found.items) }
{
    let mut found = unread_members(alloc, &Place::Layout, document)?;
    let mut of_keys = key_list_members(alloc, KeyList::OfLayout, document, "keys")?;
    let mut of_steps = steps_members(alloc, document)?;
    let mut of_inspections = inspections_members(alloc, document)?;
    found.append(&mut of_keys)?;
    found.append(&mut of_steps)?;
    found.append(&mut of_inspections)?;
    Ok(found)
}

fn expectations_members(
    alloc: Global,
    document: &Value<'_>,
) -> Result<Vec<MemberFinding>, AllocError>
    ensures { IfOk result (λ found. Joined ExpectationMembers
        (list_at (codes "expectations") (as_data document.now)) found.items) }
{
    match items_at(document, "expectations") {
        Some(expectations) => each_expectation(alloc, expectations),
        None => Ok(Vec::new(alloc)),
    }
}

fn each_expectation(
    alloc: Global,
    expectations: &Vec<Value<'_>>,
) -> Result<Vec<MemberFinding>, AllocError>
    ensures { IfOk result (λ found. Joined ExpectationMembers
        (listed (data_of_items (items_view expectations.now.items))) found.items) }
{
    let mut found = Vec::new(alloc);
    for (place, expectation) in expectations.iter().enumerate() {
        let mut here = expectation_members(alloc, place, expectation)?;
        found.append(&mut here)?;
    }
    Ok(found)
}

/// What is found in the expectation at a place.
fn expectation_members(
    alloc: Global,
    place: usize,
    expectation: &Value<'_>,
) -> Result<Vec<MemberFinding>, AllocError>
    ensures { IfOk result (λ found.
        ExpectationMembers place (as_data expectation.now) found.items) }
{
    let mut found = unread_members(alloc, &Place::Expectation(place), expectation)?;
    let mut of_builders = builders_members(alloc, place, expectation)?;
    found.append(&mut of_builders)?;
    Ok(found)
}

/// What is found in the builders of the expectation at a place.
fn builders_members(
    alloc: Global,
    place: usize,
    expectation: &Value<'_>,
) -> Result<Vec<MemberFinding>, AllocError>
    ensures { IfOk result (λ found. Joined (BuilderMembers place)
        (list_at (codes "builders") (as_data expectation.now)) found.items) }
{
    match items_at(expectation, "builders") {
        Some(builders) => each_builder(alloc, place, builders),
        None => Ok(Vec::new(alloc)),
    }
}

fn each_builder(
    alloc: Global,
    expectation: usize,
    builders: &Vec<Value<'_>>,
) -> Result<Vec<MemberFinding>, AllocError>
    ensures { IfOk result (λ found. Joined (BuilderMembers expectation)
        (listed (data_of_items (items_view builders.now.items))) found.items) }
{
    let mut found = Vec::new(alloc);
    for (place, builder) in builders.iter().enumerate() {
        let mut here = builder_members(alloc, expectation, place, builder)?;
        found.append(&mut here)?;
    }
    Ok(found)
}

/// What is found in the builder at a place of an expectation.
fn builder_members(
    alloc: Global,
    expectation: usize,
    builder: usize,
    value: &Value<'_>,
) -> Result<Vec<MemberFinding>, AllocError>
    ensures { IfOk result (λ found.
        BuilderMembers expectation builder (as_data value.now) found.items) }
{
    let place = Place::Builder {
        expectation,
        builder,
    };
    let list = KeyList::OfBuilder {
        expectation,
        builder,
    };
    let mut found = unread_members(alloc, &place, value)?;
    let mut of_keys = key_list_members(alloc, list, value, "keys")?;
    found.append(&mut of_keys)?;
    Ok(found)
}
