//! Key objects that are null in a policy and in a layout.
ghost use Rattle.std.specs.Prelude.{◌≡◌, [], IfOk, codes, map, option_map};
ghost use Rattle.std.specs.Option.{option_map_or};
ghost use Rattle.serde_json.specs.Find.{as_object};
ghost use Rattle.json.specs.Value.{items_view};
ghost use Rattle.it_borrowed.specs.Tree.{as_data, data_of_items};
ghost use Rattle.it_base.specs.List.{items_at as items_of};
ghost use Rattle.it_findings.specs.Joined.{Joined};
ghost use Rattle.it_borrowed.specs.NamedMembers.{members_in};
ghost use Rattle.it_findings.specs.NullKeys.{BuilderNulls, ExpectationNulls, LayoutNulls, NullKeys};
ghost use Rattle.it_findings.specs.NullKeys.{NullsOf, PolicyNulls, list_at, listed, null_ids};
ghost use Rattle.it_findings.specs.NullKeys.{null_key};

use crate::null_key::{KeyList, NullKey};
use it_base::text::Text;
use it_borrowed::document::member;
use it_borrowed::document_text::DocumentText;
use it_borrowed::items::items_of as list_items;
use it_borrowed::named_members::named_members;
use json::Value;
use std::alloc::{AllocError, Global};
use std::collections::BTreeMap;

/// The key objects that are null in the document that is a policy: in its owners, and then in the
/// builders of each expectation in order. There are none where the text is no document.
///
/// # Errors
///
/// `AllocError` where memory was refused.
pub fn policy_nulls(alloc: Global, text: &DocumentText<'_>) -> Result<Vec<NullKey>, AllocError>
    ensures { IfOk result (λ found. NullsOf PolicyNulls text.now found.items) }
{
    match text.document() {
        Some(document) => nulls_in_policy(alloc, document),
        None => Ok(Vec::new(alloc)),
    }
}

/// The key objects that are null in the document that is the body of a layout. There are none where
/// the text is no document.
///
/// # Errors
///
/// `AllocError` where memory was refused.
pub fn layout_nulls(alloc: Global, text: &DocumentText<'_>) -> Result<Vec<NullKey>, AllocError>
    ensures { IfOk result (λ found. NullsOf LayoutNulls text.now found.items) }
{
    match text.document() {
        Some(document) => null_keys(alloc, KeyList::OfLayout, document, "keys"),
        None => Ok(Vec::new(alloc)),
    }
}

fn nulls_in_policy(alloc: Global, document: &Value<'_>) -> Result<Vec<NullKey>, AllocError>
    ensures { IfOk result (λ found. PolicyNulls (as_data document.now) found.items) }
{
    let mut found = null_keys(alloc, KeyList::Owners, document, "owners")?;
    let mut of_builders = expectations_nulls(alloc, document)?;
    found.append(&mut of_builders)?;
    Ok(found)
}

/// What is found in the builders of the expectations.
fn expectations_nulls(alloc: Global, document: &Value<'_>) -> Result<Vec<NullKey>, AllocError>
    ensures { IfOk result (λ found. Joined ExpectationNulls
        (list_at (codes "expectations") (as_data document.now)) found.items) }
{
    match items_at(document, "expectations") {
        Some(expectations) => each_expectation(alloc, expectations),
        None => Ok(Vec::new(alloc)),
    }
}

fn each_expectation(
    alloc: Global,
    expectations: &Vec<Value<'_>>,
) -> Result<Vec<NullKey>, AllocError>
    ensures { IfOk result (λ found. Joined ExpectationNulls
        (listed (data_of_items (items_view expectations.now.items))) found.items) }
{
    let mut found = Vec::new(alloc);
    for (place, expectation) in expectations.iter().enumerate() {
        let mut here = builders_nulls(alloc, place, expectation)?;
        found.append(&mut here)?;
    }
    Ok(found)
}

/// What is found in the builders of the expectation at a place.
fn builders_nulls(
    alloc: Global,
    place: usize,
    expectation: &Value<'_>,
) -> Result<Vec<NullKey>, AllocError>
    ensures { IfOk result (λ found.
        ExpectationNulls place (as_data expectation.now) found.items) }
{
    match items_at(expectation, "builders") {
        Some(builders) => each_builder(alloc, place, builders),
        None => Ok(Vec::new(alloc)),
    }
}

fn each_builder(
    alloc: Global,
    expectation: usize,
    builders: &Vec<Value<'_>>,
) -> Result<Vec<NullKey>, AllocError>
    ensures { IfOk result (λ found. Joined (BuilderNulls expectation)
        (listed (data_of_items (items_view builders.now.items))) found.items) }
{
    let mut found = Vec::new(alloc);
    for (builder, item) in builders.iter().enumerate() {
        let list = KeyList::OfBuilder {
            expectation,
            builder,
        };
        let mut here = null_keys(alloc, list, item, "keys")?;
        found.append(&mut here)?;
    }
    Ok(found)
}

/// The items of the list that is the member of this name. Takes no memory.
pub(crate) fn items_at<'v, 't>(value: &'v Value<'t>, name: &str) -> Option<&'v Vec<Value<'t>>>
    ensures { option_map (λ items. data_of_items (items_view items.now.items)) result
        ≡ items_of name.now (as_data value.now) }
{
    list_items(member(value, name)?)
}

/// What is found in the list of key objects that is the member of this name.
fn null_keys(
    alloc: Global,
    list: KeyList,
    value: &Value<'_>,
    name: &str,
) -> Result<Vec<NullKey>, AllocError>
    ensures { IfOk result (λ found. NullKeys list name.now (as_data value.now) found.items) }
{
    match member(value, name) {
        Some(keys) => nulls_in_keys(alloc, list, keys),
        None => Ok(Vec::new(alloc)),
    }
}

fn nulls_in_keys(alloc: Global, list: KeyList, keys: &Value<'_>) -> Result<Vec<NullKey>, AllocError>
    ensures { IfOk result (λ found. found.items ≡ map (null_key list)
        (option_map_or null_ids (as_object (as_data keys.now)) [])) }
{
    match named_members(alloc, keys)? {
        Some(members) => null_members(alloc, list, members),
        None => Ok(Vec::new(alloc)),
    }
}

fn null_members(
    alloc: Global,
    list: KeyList,
    members: BTreeMap<&str, &Value<'_>>,
) -> Result<Vec<NullKey>, AllocError>
    ensures { IfOk result (λ found. found.items ≡ map (null_key list)
        (null_ids (members_in members.entry.entries))) }
{
    let mut found = Vec::new(alloc);
    for (name, member) in members {
        if !member.is_null() {
            continue;
        }
        found.push(null_key(alloc, list, name)?)?;
    }
    Ok(found)
}

fn null_key(alloc: Global, list: KeyList, name: &str) -> Result<NullKey, AllocError>
    ensures { IfOk result (λ key. key ≡ null_key list name.now) }
{
    Ok(NullKey {
        list,
        id: Text::copy(alloc, name)?,
    })
}
