//! Maps from the path of an artifact to its digests.

ghost use Rattle.std.specs.Prelude.{◌≡◌, ◌↔◌, IsTrue, IfOk, OnOk, OnErr, string_bytes, map};
ghost use Rattle.std.specs.Prelude.{option_map};
ghost use Rattle.std.specs.Ordering.{nat_cmp};
ghost use Rattle.std.specs.Cmp.Lexicographic.{slice_cmp};
ghost use Rattle.std.specs.List.Sorted.{IsStrictlySortedBy};
ghost use Rattle.std.specs.FinMap as finite;
ghost use Rattle.it_base.specs.Table.{IsTable};
ghost use Rattle.it_digest.specs.Artifacts.{path_entries};
ghost use Rattle.it_digest.specs.Digest.{IsDigestSet};
ghost use Rattle.it_digest.specs.Listed.{AreTogether};

use crate::compact::CompactSet;
use crate::compare::DigestSet;
use it_base::table::Table;
use it_borrowed::parts::FromBorrowed;
use json::Value;
use std::alloc::{AllocError, Global};
use std::collections::BTreeMap;
use std::collections::btree_map::{Iter, Keys};
use std::marker::Model;

/// A map from path to digest set. Paths are compared by their bytes.
#[derive(Drop)]
pub struct Artifacts {
    by_path: Table<CompactSet>,
    alloc: Global,
}

impl Model for Artifacts {
    ghost use Rattle.std.specs.Coded.{coded_ℕ, coded_list};
    ghost use Rattle.std.specs.FinMap as finite;
    ghost use Rattle.it_digest.specs.DigestSet.{digest_set_code};
    ghost use Rattle.it_digest.specs.Artifacts.{ArtifactMap};

    ghost Value = { ArtifactMap };

    ghost coded = { finite.code (coded_list coded_ℕ) digest_set_code };

    ghost view = { λ a. a.by_path };
}

impl Artifacts {
    /// The empty map. It takes no memory; `alloc` is kept for later calls of `insert`.
    pub fn new(alloc: Global) -> Artifacts
        ensures { result ≡ finite.empty }
    {
        Artifacts {
            by_path: Table::new(alloc),
            alloc,
        }
    }

    /// Sets the digests of a path, and returns those that the path had before, if any.
    ///
    /// # Errors
    ///
    /// `AllocError` where memory is refused; the map is then as it was.
    pub fn insert(
        &mut self,
        path: String,
        digests: DigestSet,
    ) -> Result<Option<DigestSet>, AllocError>
        ensures old { IfOk result (λ before. before ≡ finite.get self.old (string_bytes path)) }
        ensures ok { OnOk result (self.new ≡ finite.insert self.old (string_bytes path) digests) }
        ensures err { OnErr result (self.new ≡ self.old) }
    {
        let compact = CompactSet::of(self.alloc, digests)?;
        let before = self.by_path.insert(path, compact)?;
        Ok(before.map(|compact| compact.set()))
    }

    /// The digests of a path, if the map has the path.
    pub fn get(&self, path: &str) -> Option<DigestSet>
        ensures { result ≡ finite.get self.now path.now }
    {
        self.at(path).map(CompactSet::set)
    }

    /// The digests of a path as the map keeps them, if it has the path. Takes no memory.
    pub fn at(&self, path: &str) -> Option<&CompactSet>
        ensures { option_map (λ digests. digests.now) result ≡ finite.get self.now path.now }
    {
        self.by_path.get(path)
    }

    /// The paths, each once, in the order of their bytes.
    pub fn paths(&self) -> Keys<'_, String, CompactSet>
        ensures paths { map string_bytes result ≡ finite.keys self.now }
        ensures ordered { IsStrictlySortedBy (slice_cmp nat_cmp) (map string_bytes result) }
    {
        self.by_path.as_map().keys()
    }

    /// The paths with their digests, each path once, in the order of their bytes.
    pub fn iter(&self) -> Iter<'_, String, CompactSet>
        ensures { path_entries result ≡ finite.entries self.now }
    {
        self.by_path.iter()
    }

    /// A copy of the map, in memory from `alloc`.
    ///
    /// # Errors
    ///
    /// `AllocError` where memory is refused.
    pub fn copy(&self, alloc: Global) -> Result<Artifacts, AllocError>
        ensures { IfOk result (λ copy. copy ≡ self.now) }
    {
        map_of(alloc, self.by_path.as_map())
    }

    /// This map of a digest list by SHA-256 together with that of one by SHA-512: the paths of
    /// both, each with the digests of the list that has it, or of both lists. New paths are in
    /// memory from `alloc`.
    ///
    /// # Errors
    ///
    /// `AllocError` where memory is refused.
    pub(crate) fn together(self, alloc: Global, other: &Artifacts) -> Result<Artifacts, AllocError>
        ensures { IfOk result (AreTogether self other.now) }
    {
        with_listed(alloc, self, other.by_path.as_map())
    }

    /// Whether the map is empty.
    pub fn is_empty(&self) -> bool
        ensures { IsTrue result ↔ (self.now ≡ finite.empty) }
    {
        self.by_path.is_empty()
    }

    /// Whether both maps have the same paths with equal digest sets. Equal means the same
    /// algorithms with the same values. Two empty sets are equal, though they do not agree.
    pub fn same_as(&self, other: &Artifacts) -> bool
        ensures { IsTrue result ↔ (self.now ≡ other.now) }
    {
        self.by_path.as_map() == other.by_path.as_map()
    }
}

impl FromBorrowed for Artifacts {
    ghost is_of = { IsTable IsDigestSet };

    /// The artifacts of a JSON object from path to digest set (in-toto 1.0 section 4.4). A
    /// member whose value is null counts as missing.
    fn from_borrowed(alloc: Global, value: &Value<'_>) -> Result<Option<Artifacts>, AllocError> {
        match Table::<CompactSet>::from_borrowed(alloc, value)? {
            None => Ok(None),
            Some(by_path) => Ok(Some(Artifacts { by_path, alloc })),
        }
    }
}

/// The map of these entries, in memory from `alloc`.
fn map_of(alloc: Global, by_path: &BTreeMap<String, CompactSet>) -> Result<Artifacts, AllocError>
    ensures { IfOk result (λ map. map ≡ finite.from_entries (path_entries by_path.now.entries)) }
{
    let mut map = Artifacts::new(alloc);
    for (path, digests) in by_path.iter() {
        map.insert(String::from_str(alloc, path)?, digests.set())?;
    }
    Ok(map)
}

/// The map with the SHA-512 of these entries, each under its path.
fn with_listed(
    alloc: Global,
    files: Artifacts,
    by_path: &BTreeMap<String, CompactSet>,
) -> Result<Artifacts, AllocError>
    ensures { IfOk result
        (AreTogether files (finite.from_entries (path_entries by_path.now.entries))) }
{
    let mut together = files;
    for (path, listed) in by_path.iter() {
        let listed = listed.set();
        let digests = match together.get(path) {
            Some(digests) => DigestSet {
                sha512: listed.sha512,
                ..digests
            },
            None => listed,
        };
        together.insert(String::from_str(alloc, path)?, digests)?;
    }
    Ok(together)
}
