//! What is found in key objects that describe identities, or are meant to.
ghost use Rattle.std.specs.Prelude.{◌↔◌, IfOk, IsTrue, string_bytes};
ghost use Rattle.it_findings.specs.IdentityFindings.{BuilderKeyFindings, ExpectationKeyFindings};
ghost use Rattle.it_findings.specs.IdentityFindings.{IsIncomplete, KeyFindings, KeyListFindings};
ghost use Rattle.it_findings.specs.IdentityFindings.{LayoutIdentities, PolicyIdentities};
ghost use Rattle.it_findings.specs.IdentityFindings.{SignsDocuments};
ghost use Rattle.it_findings.specs.Joined.{Joined, Said};
ghost use Rattle.it_findings.specs.KeyIdentities.{HasIdentity};
ghost use Rattle.it_findings.specs.KeyPlaces.{key_place as place_under};

use crate::finding::Finding;
use crate::key_identities::has_identity;
use crate::key_members::key_place;
use crate::null_key::KeyList;
use crate::one::one;
use it_base::table::Table;
use it_docs::layout::Layout;
use it_docs::policy::{Builder, Expectation, Policy};
use it_dsse::key_object::KeyObject;
use std::alloc::{AllocError, Global};

/// What is found in a policy: in its owners, and then in the builders of each expectation in order.
///
/// # Errors
///
/// `AllocError` where memory was refused.
pub(crate) fn policy_identities(alloc: Global, policy: &Policy) -> Result<Vec<Finding>, AllocError>
    ensures { IfOk result (λ found. PolicyIdentities policy.now found.items) }
{
    let mut found = each_key(alloc, KeyList::Owners, &policy.owners)?;
    let mut of_builders = each_expectation(alloc, policy.expectations.as_slice())?;
    found.append(&mut of_builders)?;
    Ok(found)
}

/// What is found in the keys of a layout.
///
/// # Errors
///
/// `AllocError` where memory was refused.
pub(crate) fn layout_identities(alloc: Global, layout: &Layout) -> Result<Vec<Finding>, AllocError>
    ensures { IfOk result (λ found. LayoutIdentities layout.now found.items) }
{
    each_key(alloc, KeyList::OfLayout, &layout.keys)
}

fn each_expectation(alloc: Global, expectations: &[Expectation]) -> Result<Vec<Finding>, AllocError>
    ensures { IfOk result (λ found.
        Joined ExpectationKeyFindings expectations.now found.items) }
{
    let mut found = Vec::new(alloc);
    for (place, expectation) in expectations.iter().enumerate() {
        let mut here = each_builder(alloc, place, expectation.builders.as_slice())?;
        found.append(&mut here)?;
    }
    Ok(found)
}

fn each_builder(
    alloc: Global,
    expectation: usize,
    builders: &[Builder],
) -> Result<Vec<Finding>, AllocError>
    ensures { IfOk result (λ found.
        Joined (BuilderKeyFindings expectation) builders.now found.items) }
{
    let mut found = Vec::new(alloc);
    for (place, builder) in builders.iter().enumerate() {
        let list = KeyList::OfBuilder {
            expectation,
            builder: place,
        };
        let mut here = each_key(alloc, list, &builder.keys)?;
        found.append(&mut here)?;
    }
    Ok(found)
}

fn each_key(
    alloc: Global,
    list: KeyList,
    keys: &Table<KeyObject>,
) -> Result<Vec<Finding>, AllocError>
    ensures { IfOk result (λ found. KeyListFindings list keys.now found.items) }
{
    let mut found = Vec::new(alloc);
    for (id, object) in keys.iter() {
        let mut here = key_findings(alloc, list, id, object)?;
        found.append(&mut here)?;
    }
    Ok(found)
}

/// What is found in the key object under an id of a list.
fn key_findings(
    alloc: Global,
    list: KeyList,
    id: &String,
    object: &KeyObject,
) -> Result<Vec<Finding>, AllocError>
    ensures { IfOk result (λ found.
        KeyFindings list (string_bytes id.now, object.now) found.items) }
{
    let mut found = of_identity(alloc, list, id, object)?;
    let mut of_incomplete = incomplete(alloc, list, id, object)?;
    found.append(&mut of_incomplete)?;
    Ok(found)
}

fn of_identity(
    alloc: Global,
    list: KeyList,
    id: &String,
    object: &KeyObject,
) -> Result<Vec<Finding>, AllocError>
    ensures { IfOk result (λ found. Said (SignsDocuments list × HasIdentity object.now)
        (Finding.IdentityKey (place_under list (string_bytes id.now))) found.items) }
{
    if !signs_by_identity(list, object) {
        return Ok(Vec::new(alloc));
    }
    one(
        alloc,
        Finding::IdentityKey(key_place(alloc, list, id.as_str())?),
    )
}

fn incomplete(
    alloc: Global,
    list: KeyList,
    id: &String,
    object: &KeyObject,
) -> Result<Vec<Finding>, AllocError>
    ensures { IfOk result (λ found. Said (IsIncomplete object.now)
        (Finding.IncompleteIdentity (place_under list (string_bytes id.now))) found.items) }
{
    if !is_incomplete(object) {
        return Ok(Vec::new(alloc));
    }
    one(
        alloc,
        Finding::IncompleteIdentity(key_place(alloc, list, id.as_str())?),
    )
}

/// Whether the object is in a list whose keys sign layouts or links, and describes an identity.
fn signs_by_identity(list: KeyList, object: &KeyObject) -> bool
    ensures { IsTrue result ↔ (SignsDocuments list × HasIdentity object.now) }
{
    signs_documents(list) && has_identity(object)
}

fn signs_documents(list: KeyList) -> bool
    ensures { IsTrue result ↔ SignsDocuments list }
{
    match list {
        KeyList::Owners | KeyList::OfLayout => true,
        KeyList::OfBuilder { .. } => false,
    }
}

fn is_incomplete(object: &KeyObject) -> bool
    ensures { IsTrue result ↔ IsIncomplete object.now }
{
    object.scheme.as_str() == "Fulcio" && !has_identity(object)
}
