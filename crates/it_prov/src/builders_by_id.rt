//! Builders by the ids of their keys, and which of them can have signed an envelope.
ghost use Rattle.std.specs.Prelude.{◌≡◌, ◌<◌, List, ℕ, Contains, IfOk, OnOk};
ghost use Rattle.it_places.specs.Places.{IsUnder};
ghost use Rattle.it_prov.specs.inside.Possible.{ArePossible, AreUnderIds, IsUnderIds};

use it_base::table::Table;
use it_docs::policy::Builder;
use it_dsse::envelope::Envelope;
use it_dsse::key_object::KeyObject;
use it_places::Places;
use std::alloc::{AllocError, Global};

/// Builders, and their places by the ids of their keys.
#[derive(Drop)]
pub(crate) struct BuildersById<'a> {
    /// The builders.
    pub(crate) builders: Vec<&'a Builder>,
    /// Their places, under the ids of their keys.
    pub(crate) ids: Places<'a>,
}

impl<'a> BuildersById<'a> {
    /// These builders, by the ids of their keys.
    pub(crate) fn of(
        alloc: Global,
        builders: Vec<&'a Builder>,
    ) -> Result<BuildersById<'a>, AllocError>
        ensures builders { IfOk result (λ by_id. by_id.builders ≡ builders.entry) }
        ensures listed { IfOk result (λ by_id. AreUnderIds by_id.builders.items by_id.ids) }
    {
        let mut ids = Places::new(alloc);
        for (place, builder) in builders.as_slice().iter().enumerate() {
            put_under_ids(alloc, &mut ids, &builder.keys, place)?;
        }
        Ok(BuildersById { builders, ids })
    }

    /// The places of the builders that can have signed the envelope: those with a key under the
    /// hint of one of its signatures, or all where one has no hint. A place may come again.
    pub(crate) fn possible_signers(
        &self,
        alloc: Global,
        envelope: &Envelope,
    ) -> Result<Vec<usize>, AllocError>
        requires { AreUnderIds self.now.builders.items self.now.ids }
        ensures { IfOk result (λ places.
            ArePossible envelope.now self.now.builders.items places.items) }
    {
        let mut places = Vec::new(alloc);
        for signature in envelope.signatures.as_slice() {
            let hint = signature.keyid.as_str().as_bytes();
            if hint.is_empty() {
                return all_places(alloc, self.builders.as_slice().len());
            }
            places.extend_from_slice(self.ids.under(hint))?;
        }
        Ok(places)
    }
}

/// Puts a place under the ids of some keys.
fn put_under_ids<'a>(
    alloc: Global,
    ids: &mut Places<'a>,
    keys: &'a Table<KeyObject>,
    place: usize,
) -> Result<(), AllocError>
    ensures under { OnOk result (IsUnderIds ids.new keys.now place) }
    ensures kept { OnOk result ((text : List ℕ) (p : ℕ) → IsUnder ids.old text p
        → IsUnder ids.new text p) }
{
    for (id, _) in keys.iter() {
        ids.put(alloc, id.as_bytes(), place)?;
    }
    Ok(())
}

/// The places below a number.
fn all_places(alloc: Global, count: usize) -> Result<Vec<usize>, AllocError>
    ensures { IfOk result (λ places. (place : ℕ) → place < count → Contains places.items place) }
{
    let mut places = Vec::with_capacity(alloc, count)?;
    for place in 0..count {
        places.push(place)?;
    }
    Ok(places)
}
