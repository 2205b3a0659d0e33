//! The index of the subjects of Statements, by each of their digests.
ghost use Rattle.std.specs.Prelude.{◌≡◌, ◌||◌, ℕ, Bool, Contains, IfOk, IsTrue, OnOk, false};
ghost use Rattle.std.specs.List.{list_any};
ghost use Rattle.std.specs.Option.{option_map_or};
ghost use Rattle.it_digest.specs.declared.compare.DigestSet.{DigestSet};
ghost use Rattle.it_prov.specs.declared.index.Entry.{Entry};
ghost use Rattle.it_prov.specs.Index.{IsIndex, is_of, lists};
ghost use Rattle.it_prov.specs.inside.Indexed.{AreAdded, IsAdded, IsAddedUnder};

use crate::attestations::Attestation;
use it_digest::compare::DigestSet;
use std::alloc::{AllocError, Global};
use std::collections::BTreeMap;

/// A subject of the Statement that an envelope holds.
#[derive(Clone, Copy, PartialEq, Eq)]
pub(crate) struct Entry {
    /// The place of the envelope.
    pub(crate) place: usize,
    /// The subject.
    pub(crate) subject: DigestSet,
}

/// The subjects of the Statements that envelopes hold, under each digest that they have. Under a
/// digest, those of one envelope stand together, and equal ones next to each other are one entry.
#[derive(Drop)]
pub(crate) struct Index {
    pub(crate) by_sha256: BTreeMap<[u8; 32], Vec<Entry>>,
    pub(crate) by_sha384: BTreeMap<[u8; 48], Vec<Entry>>,
    pub(crate) by_sha512: BTreeMap<[u8; 64], Vec<Entry>>,
}

impl Index {
    /// The index of the Statements that envelopes hold.
    pub(crate) fn of(alloc: Global, held: &[Option<Attestation>]) -> Result<Index, AllocError>
        ensures { IfOk result (IsIndex held.now) }
    {
        let mut index = Index {
            by_sha256: BTreeMap::new(alloc),
            by_sha384: BTreeMap::new(alloc),
            by_sha512: BTreeMap::new(alloc),
        };
        for (place, one) in held.iter().enumerate() {
            if let Some(attestation) = one {
                index.add_each(place, attestation.statement.subjects.as_slice())?;
            }
        }
        Ok(index)
    }

    /// Adds the subjects of the Statement that the envelope at a place holds.
    fn add_each(&mut self, place: usize, subjects: &[DigestSet]) -> Result<(), AllocError>
        ensures { OnOk result (AreAdded place subjects.now self.old self.new) }
    {
        for subject in subjects {
            self.add(Entry {
                place,
                subject: *subject,
            })?;
        }
        Ok(())
    }

    fn add(&mut self, entry: Entry) -> Result<(), AllocError>
        ensures { OnOk result (IsAdded entry self.old self.new) }
    {
        add_under(&mut self.by_sha256, entry.subject.sha256, entry)?;
        add_under(&mut self.by_sha384, entry.subject.sha384, entry)?;
        add_under(&mut self.by_sha512, entry.subject.sha512, entry)?;
        Ok(())
    }
}

/// The entries under a digest.
pub(crate) fn entries_under<'a, const N: usize>(
    entries: &'a BTreeMap<[u8; N], Vec<Entry>>,
    digest: &Option<[u8; N]>,
) -> &'a [Entry]
    ensures { (test : DigestSet → Bool) (place : ℕ)
        → list_any (is_of test place) result.now
        ≡ option_map_or (λ d. lists entries.now d test place) digest.now false }
{
    let Some(digest) = digest else {
        return &[];
    };
    match entries.get(digest) {
        Some(found) => found.as_slice(),
        None => &[],
    }
}

/// Adds an entry under a digest, if there is one.
fn add_under<const N: usize>(
    entries: &mut BTreeMap<[u8; N], Vec<Entry>>,
    digest: Option<[u8; N]>,
    entry: Entry,
) -> Result<(), AllocError>
    ensures { OnOk result (IsAddedUnder digest.entry entry entries.old entries.new) }
{
    if let Some(digest) = digest {
        end_with(entries.entry(digest)?.or_default(), entry)?;
    }
    Ok(())
}

/// Puts an entry at the end, unless it is there already.
fn end_with(entries: &mut Vec<Entry>, entry: Entry) -> Result<(), AllocError>
    ensures { OnOk result ((test : Entry → Bool)
        → list_any test entries.new.items ≡ (list_any test entries.old.items || test entry)) }
{
    if is_last(entries.as_slice(), &entry) {
        return Ok(());
    }
    entries.push(entry)?;
    Ok(())
}

/// Whether an entry is the last one.
fn is_last(entries: &[Entry], entry: &Entry) -> bool
    ensures { IsTrue result → Contains entries.now entry.now }
{
    match entries.last() {
        Some(last) => last == entry,
        None => false,
    }
}
