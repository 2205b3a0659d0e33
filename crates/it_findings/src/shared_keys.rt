//! Keys that a policy lists for two owners, or for two builders.
ghost use Rattle.std.specs.Prelude.{◌≡◌, ◌≢◌, IfOk, OnOk, find, slice_get};
ghost use Rattle.std.specs.Option.{option_copied};
ghost use Rattle.it_findings.specs.Joined.{Said};
ghost use Rattle.it_findings.specs.SharedKeys.{SharedAmong, SharedIn, SharedKeys, is_key};
ghost use Rattle.it_findings.specs.inside.FirstPlaces.{ArePlaces, KeepsFirst, name_of};

use crate::finding::Finding;
use crate::key_use::KeyUse;
use crate::key_uses::{builder_uses, owner_uses};
use crate::listed_key::ListedKey;
use crate::one::one;
use crate::shared_key::{Holder, SharedKey};
use it_base::table::Table;
use it_docs::policy::Policy;
use std::alloc::{AllocError, Global};

/// What is found in the keys of a policy: in those of its owners, and then in those of the builders
/// of all its expectations.
///
/// # Errors
///
/// `AllocError` where memory was refused.
pub(crate) fn shared_keys(alloc: Global, policy: &Policy) -> Result<Vec<Finding>, AllocError>
    ensures { IfOk result (λ found. SharedKeys policy.now found.items) }
{
    let of_owners = owner_uses(alloc, &policy.owners)?;
    let of_builders = builder_uses(alloc, policy.expectations.as_slice())?;
    let mut found = shared_among(alloc, of_owners.as_slice())?;
    let mut others = shared_among(alloc, of_builders.as_slice())?;
    found.append(&mut others)?;
    Ok(found)
}

/// What is found in all keys of a list, in their order.
fn shared_among(alloc: Global, uses: &[KeyUse]) -> Result<Vec<Finding>, AllocError>
    ensures { IfOk result (λ found. SharedAmong uses.now found.items) }
{
    let places = first_places(alloc, uses)?;
    let mut found = Vec::new(alloc);
    for at in uses {
        let mut here = shared_in(alloc, uses, &places, at)?;
        found.append(&mut here)?;
    }
    Ok(found)
}

/// The first place of each key.
fn first_places(alloc: Global, uses: &[KeyUse]) -> Result<Table<usize>, AllocError>
    ensures { IfOk result (λ places. ArePlaces uses.now places) }
{
    let mut places = Table::new(alloc);
    for (place, at) in uses.iter().enumerate() {
        keep_first(alloc, &mut places, &at.key, place)?;
    }
    Ok(places)
}

fn keep_first(
    alloc: Global,
    places: &mut Table<usize>,
    key: &ListedKey,
    place: usize,
) -> Result<(), AllocError>
    ensures { OnOk result (KeepsFirst key.now place places.old places.new) }
{
    let name = key.name(alloc)?;
    if places.get(name.as_str()).is_some() {
        return Ok(());
    }
    places.insert(name, place)?;
    Ok(())
}

/// What is found in a key among all.
fn shared_in(
    alloc: Global,
    uses: &[KeyUse],
    places: &Table<usize>,
    at: &KeyUse,
) -> Result<Vec<Finding>, AllocError>
    requires { ArePlaces uses.now places.now }
    ensures { IfOk result (λ found. SharedIn uses.now at.now found.items) }
{
    let name = at.key.name(alloc)?;
    match first_use(uses, places, name.as_str()) {
        Some(first) => shared_with(alloc, &first.holder, at),
        None => Ok(Vec::new(alloc)),
    }
}

/// The first use of the key that has this name.
fn first_use<'u>(uses: &'u [KeyUse], places: &Table<usize>, name: &str) -> Option<&'u KeyUse>
    requires { ArePlaces uses.now places.now }
    ensures { (key : ListedKey) → name.now ≡ name_of key
        → option_copied result ≡ find (is_key key) uses.now }
{
    match places.get(name) {
        Some(place) => use_at(uses, *place),
        None => None,
    }
}

/// The key at a place, if there is one.
fn use_at(uses: &[KeyUse], place: usize) -> Option<&KeyUse>
    ensures { option_copied result ≡ slice_get uses.now place }
{
    uses.get(place)
}

/// What is found in a key whose first holder is this one.
fn shared_with(alloc: Global, first: &Holder, at: &KeyUse) -> Result<Vec<Finding>, AllocError>
    ensures { IfOk result (λ found. Said (first.now ≢ at.now.holder)
        (Finding.SharedKey (record {
          place = at.now.place;
          holder = at.now.holder;
          first = first.now;
        })) found.items) }
{
    if first.is_same(&at.holder) {
        return Ok(Vec::new(alloc));
    }
    let shared = SharedKey {
        place: at.place.copy(alloc)?,
        holder: at.holder.copy(alloc)?,
        first: first.copy(alloc)?,
    };
    one(alloc, Finding::SharedKey(shared))
}
