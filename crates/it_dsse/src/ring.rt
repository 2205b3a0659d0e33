//! A ring of secrets, and its use as a check.
ghost use Rattle.std.specs.Prelude.{◌≡◌, IfOk, IsErrOf, find, map, option_map, position};
ghost use Rattle.std.specs.Prelude.{slice_get, string_bytes};
ghost use Rattle.std.specs.Option.{option_copied};
ghost use Rattle.std.specs.Cmp.Lexicographic.{slice_cmp};
ghost use Rattle.std.specs.List.Sorted.{IsPermutation, IsSorted};
ghost use Rattle.std.specs.Ordering.{nat_cmp};
ghost use Rattle.it_base.specs.Finds.{Finds};
ghost use Rattle.it_dsse.specs.Hmac.{hmac};
ghost use Rattle.it_message.specs.Message.{joined};
ghost use Rattle.it_dsse.specs.Ring.{RingOf, has_id, has_key, ids_of, number_of};
ghost use Rattle.it_dsse.specs.declared.ring.RingFault.TheVariants.{OutOfMemory};

use crate::check::SignatureCheck;
use crate::code_check::CodeCheck;
use crate::envelope::Signature;
use crate::key_object::KeyObject;
use crate::mac::{block, hmac_sha256_parts};
use crate::meter::Meter;
use crate::ring_entry::RingEntry;
use crate::ring_ids::sorted_ids;
use crate::ring_index::{places_of_ids, places_of_keys};
use it_base::parts::from_bytes;
use it_base::sequence::Sequence;
use std::alloc::{AllocError, Global};
use std::collections::BTreeMap;
use std::marker::Model;

/// The greatest number of entries that a ring can have.
const MOST_ENTRIES: usize = 65536;

/// Secrets under their ids, for checking signatures by HMAC-SHA-256. A contract sees the list of
/// the entries, in the order of the document.
#[derive(Drop)]
pub struct HmacRing {
    entries: Sequence<RingEntry>,
    places_of_ids: BTreeMap<String, u32>,
    places_of_keys: BTreeMap<[u8; 64], u32>,
}

impl Model for HmacRing {
    ghost use Rattle.std.specs.Prelude.{List, length, ◌≤◌};
    ghost use Rattle.it_dsse.specs.declared.ring_entry.RingEntry.{RingEntry};
    ghost use Rattle.it_dsse.specs.inside.RingIndex.{PlacesIds, PlacesKeys};

    ghost Value = { List RingEntry };

    ghost view = { λ ring. ring.entries };

    ghost invariant = { λ ring. (length ring.entries ≤ 65536)
        × PlacesIds ring.entries ring.places_of_ids
        × PlacesKeys ring.entries ring.places_of_keys };
}

/// Why no ring was read.
#[derive(Clone, Copy, Debug, PartialEq, Eq)]
pub enum RingFault {
    /// The bytes are not a ring.
    BadRing,
    /// Memory was refused.
    OutOfMemory,
}

impl From<AllocError> for RingFault {
    ghost from_gives = { λ _ e. e ≡ OutOfMemory };

    fn from(_e: AllocError) -> RingFault {
        RingFault::OutOfMemory
    }
}

impl HmacRing {
    /// Reads a ring from all of the bytes: a JSON list of at most 65,536 objects, each with a text
    /// `id` and a hexadecimal text `secret`, with no id twice.
    ///
    /// # Errors
    ///
    /// `BadRing` where the bytes are not a ring, and `OutOfMemory` where memory was refused.
    pub fn read(alloc: Global, bytes: &[u8]) -> Result<HmacRing, RingFault>
        ensures ok { IfOk result (λ ring. RingOf bytes.now ring) }
        ensures bad { IsErrOf result RingFault.BadRing → (ring : _) → ¬ RingOf bytes.now ring }
    {
        ring_of(alloc, bytes)?.ok_or(RingFault::BadRing)
    }

    /// The ids of the entries, in the order of their bytes.
    ///
    /// # Errors
    ///
    /// `AllocError` where memory was refused.
    pub fn ids(&self, alloc: Global) -> Result<Vec<String>, AllocError>
        ensures same { IfOk result
            (λ ids. IsPermutation (ids_of self.now) (map string_bytes ids.items)) }
        ensures ordered { IfOk result
            (λ ids. IsSorted (slice_cmp nat_cmp) (map string_bytes ids.items)) }
    {
        sorted_ids(alloc, self.entries.as_slice())
    }

    /// The entry with this id.
    pub(crate) fn entry(&self, id: &str) -> Option<&RingEntry>
        ensures { option_copied result ≡ find (has_id id.now) self.now }
    {
        let entries = self.entries.as_slice();
        match self.places_of_ids.get(id) {
            Some(place) => entry_at(entries, *place),
            None => None,
        }
    }

    fn place_of_key(&self, key: &[u8; 64]) -> Option<u32>
        ensures { result ≡ position (has_key key.now) self.now }
    {
        self.places_of_keys.get(key).copied()
    }

    fn number(&self, id: &str) -> Option<u32>
        ensures { result ≡ number_of self.now id.now }
    {
        match self.entry(id) {
            Some(entry) => self.place_of_key(&block(entry.secret.as_slice())),
            None => None,
        }
    }
}

fn ring_of(alloc: Global, bytes: &[u8]) -> Result<Option<HmacRing>, AllocError>
    ensures { IfOk result (Finds (RingOf bytes.now)) }
{
    let Some(entries) = from_bytes::<Sequence<RingEntry>>(alloc, bytes)? else {
        return Ok(None);
    };
    if entries.as_slice().len() > MOST_ENTRIES {
        return Ok(None);
    }
    let Some(places_of_ids) = places_of_ids(alloc, entries.as_slice())? else {
        return Ok(None);
    };
    let places_of_keys = places_of_keys(alloc, entries.as_slice())?;
    Ok(Some(HmacRing {
        entries,
        places_of_ids,
        places_of_keys,
    }))
}

fn entry_at(entries: &[RingEntry], place: u32) -> Option<&RingEntry>
    ensures { option_copied result ≡ slice_get entries.now place }
{
    entries.get(place as usize)
}

/// The code of the message that the parts make, under the secret at a place.
fn code_at(entries: &[RingEntry], place: u32, message: &[&[u8]]) -> Option<[u8; 32]>
    ensures { result ≡ option_map (λ entry. hmac entry.secret (joined message.now))
        (slice_get entries.now place) }
{
    match entry_at(entries, place) {
        Some(entry) => Some(hmac_sha256_parts(entry.secret.as_slice(), message)),
        None => None,
    }
}

impl SignatureCheck for HmacRing {
    ghost use Rattle.it_dsse.specs.Ring.{ring_check};

    ghost meaning = { ring_check };

    /// The place of the first entry with the same key as the entry with this id, where the scheme
    /// is `hmac-sha256`.
    fn key(&self, id: &str, object: &KeyObject) -> Option<u32> {
        if object.scheme.as_str() == "hmac-sha256" {
            self.number(id)
        } else {
            None
        }
    }

    /// Whether `sig` is the HMAC-SHA-256 of the joined message under the secret at the place `key`.
    fn valid(&self, key: u32, message: &[&[u8]], sig: &[u8], meter: &mut Meter) -> bool {
        let code = code_at(self.entries.as_slice(), key, message);
        CodeCheck { code }.valid(key, message, sig, meter)
    }

    /// One code is computed for all the signatures.
    fn any_valid(
        &self,
        key: u32,
        message: &[&[u8]],
        signatures: &[Signature],
        id: &str,
        meter: &mut Meter,
    ) -> bool {
        let code = code_at(self.entries.as_slice(), key, message);
        CodeCheck { code }.any_valid(key, message, signatures, id, meter)
    }
}
