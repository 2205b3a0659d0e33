//! The keys that a policy lists, with their holders.
ghost use Rattle.std.specs.Prelude.{◌≡◌, ◌↔◌, IfOk, IsTrue, Some, string_bytes};
ghost use Rattle.std.specs.FinMap.{entries};
ghost use Rattle.it_findings.specs.Joined.{Joined, JoinedEach};
ghost use Rattle.it_findings.specs.KeyUses.{BuilderUses, ExpectationUses, HasPublic, KeyUses};
ghost use Rattle.it_findings.specs.KeyUses.{IsKeyIn, OwnerUses, uses_of};

use crate::key_identities::has_identity;
use crate::key_members::key_place;
use crate::key_use::KeyUse;
use crate::listed_key::ListedKey;
use crate::null_key::KeyList;
use crate::shared_key::Holder;
use it_base::table::Table;
use it_base::text::Text;
use it_docs::policy::{Builder, Expectation};
use it_dsse::key_object::KeyObject;
use std::alloc::{AllocError, Global};

/// The keys of owners, in the order of their ids.
///
/// # Errors
///
/// `AllocError` where memory was refused.
pub(crate) fn owner_uses(
    alloc: Global,
    owners: &Table<KeyObject>,
) -> Result<Vec<KeyUse>, AllocError>
    ensures { IfOk result (λ uses. JoinedEach OwnerUses (entries owners.now) uses.items) }
{
    let mut uses = Vec::new(alloc);
    for (id, object) in owners.iter() {
        let mut here = owner_use(alloc, id, object)?;
        uses.append(&mut here)?;
    }
    Ok(uses)
}

fn owner_use(alloc: Global, id: &String, object: &KeyObject) -> Result<Vec<KeyUse>, AllocError>
    ensures { IfOk result (λ uses. OwnerUses (string_bytes id.now, object.now) uses.items) }
{
    let holder = Holder::Owner(Text::copy(alloc, id.as_str())?);
    key_use(alloc, KeyList::Owners, &holder, id, object)
}

/// The keys of the builders of expectations, in their order.
///
/// # Errors
///
/// `AllocError` where memory was refused.
pub(crate) fn builder_uses(
    alloc: Global,
    expectations: &[Expectation],
) -> Result<Vec<KeyUse>, AllocError>
    ensures { IfOk result (λ uses. Joined ExpectationUses expectations.now uses.items) }
{
    let mut uses = Vec::new(alloc);
    for (place, expectation) in expectations.iter().enumerate() {
        let mut here = each_builder(alloc, place, expectation.builders.as_slice())?;
        uses.append(&mut here)?;
    }
    Ok(uses)
}

fn each_builder(
    alloc: Global,
    expectation: usize,
    builders: &[Builder],
) -> Result<Vec<KeyUse>, AllocError>
    ensures { IfOk result (λ uses. Joined (BuilderUses expectation) builders.now uses.items) }
{
    let mut uses = Vec::new(alloc);
    for (place, builder) in builders.iter().enumerate() {
        let mut here = builder_keys(alloc, expectation, place, builder)?;
        uses.append(&mut here)?;
    }
    Ok(uses)
}

/// The keys of the builder at a place of an expectation.
fn builder_keys(
    alloc: Global,
    expectation: usize,
    place: usize,
    builder: &Builder,
) -> Result<Vec<KeyUse>, AllocError>
    ensures { IfOk result (λ uses. BuilderUses expectation place builder.now uses.items) }
{
    let list = KeyList::OfBuilder {
        expectation,
        builder: place,
    };
    let holder = Holder::Builder {
        id: Text::copy(alloc, builder.id.as_str())?,
        level: builder.level,
    };
    each_key(alloc, list, &holder, &builder.keys)
}

fn each_key(
    alloc: Global,
    list: KeyList,
    holder: &Holder,
    keys: &Table<KeyObject>,
) -> Result<Vec<KeyUse>, AllocError>
    ensures { IfOk result (λ uses.
        JoinedEach (KeyUses list holder.now) (entries keys.now) uses.items) }
{
    let mut uses = Vec::new(alloc);
    for (id, object) in keys.iter() {
        let mut here = key_use(alloc, list, holder, id, object)?;
        uses.append(&mut here)?;
    }
    Ok(uses)
}

/// The key under an id of a list, if its object has one.
fn key_use(
    alloc: Global,
    list: KeyList,
    holder: &Holder,
    id: &String,
    object: &KeyObject,
) -> Result<Vec<KeyUse>, AllocError>
    ensures { IfOk result (λ uses.
        KeyUses list holder.now (string_bytes id.now, object.now) uses.items) }
{
    match key_in(alloc, object)? {
        Some(key) => one_use(alloc, list, holder, id, key),
        None => Ok(Vec::new(alloc)),
    }
}

fn one_use(
    alloc: Global,
    list: KeyList,
    holder: &Holder,
    id: &String,
    key: ListedKey,
) -> Result<Vec<KeyUse>, AllocError>
    ensures { IfOk result (λ uses.
        uses.items ≡ uses_of list holder.now (string_bytes id.now) (Some key)) }
{
    let key = KeyUse {
        place: key_place(alloc, list, id.as_str())?,
        holder: holder.copy(alloc)?,
        key,
    };
    let mut uses = Vec::new(alloc);
    uses.push(key)?;
    Ok(uses)
}

/// The key of an object: its identity where it describes one, and otherwise its public key.
fn key_in(alloc: Global, object: &KeyObject) -> Result<Option<ListedKey>, AllocError>
    ensures { IfOk result (IsKeyIn object.now) }
{
    if has_identity(object) {
        return Ok(Some(ListedKey::Identity {
            identity: Text::copy(alloc, object.identity.as_str())?,
            issuer: Text::copy(alloc, object.issuer.as_str())?,
        }));
    }
    if !has_public(object) {
        return Ok(None);
    }
    let public = Text::copy(alloc, object.public.as_str())?;
    Ok(Some(ListedKey::Public(public)))
}

/// Whether the object describes a public key.
fn has_public(object: &KeyObject) -> bool
    ensures { IsTrue result ↔ HasPublic object.now }
{
    !object.public.as_str().is_empty() && object.scheme.as_str() != "hmac-sha256"
}
