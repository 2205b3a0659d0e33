//! Digest sets in the room that they need.
ghost use Rattle.std.specs.Prelude.{◌≡◌, ◌↔◌, IfOk};
ghost use Rattle.it_borrowed.specs.Tree.{as_data};
ghost use Rattle.it_digest.specs.Compare.{Agree, Apart, Differ, compared};
ghost use Rattle.it_digest.specs.Digest.{IsDigestSet};
ghost use Rattle.it_digest.specs.DigestSet.{in_sha256, only};
ghost use Rattle.it_digest.specs.Equal.{same_set, same_set_partial_equivalence};

use crate::compare::{Compare, DigestSet};
use crate::digest::digest_set;
use it_borrowed::parts::FromBorrowed;
use json::Value;
use std::alloc::{AllocError, Global};
use std::marker::Model;

/// A digest set as maps keep it: most sets have a SHA-256 alone, which takes a fourth of the room
/// of a whole set. A contract sees the set.
#[derive(Drop)]
pub struct CompactSet {
    kept: Kept,
}

/// What is kept of a digest set.
#[derive(Drop)]
enum Kept {
    /// Its SHA-256, which it has alone.
    Sha256([u8; 32]),
    /// The whole set.
    Whole(Box<DigestSet>),
}

impl Model for CompactSet {
    ghost use Rattle.it_digest.specs.declared.compare.DigestSet.{DigestSet};
    ghost use Rattle.it_digest.specs.DigestSet.{digest_set_code};

    ghost Value = { DigestSet };

    ghost coded = { digest_set_code };

    ghost use Rattle.it_digest.specs.inside.Compact.{set_of};

    ghost view = { λ c. set_of c.kept };
}

impl CompactSet {
    /// Keeps a set.
    pub(crate) fn of(alloc: Global, set: DigestSet) -> Result<CompactSet, AllocError>
        ensures { IfOk result (λ compact. compact ≡ set) }
    {
        let kept = match set {
            DigestSet {
                sha256: Some(digest),
                sha384: None,
                sha512: None,
            } => Kept::Sha256(digest),
            _ => Kept::Whole(Box::new(alloc, set)?),
        };
        Ok(CompactSet { kept })
    }

    /// The set. Takes no memory.
    pub fn set(&self) -> DigestSet
        ensures { result ≡ self.now }
    {
        match &self.kept {
            Kept::Sha256(digest) => DigestSet::of_sha256(*digest),
            Kept::Whole(set) => **set,
        }
    }

    /// Compares two sets, as `DigestSet::compare` does. Takes no memory.
    pub fn compare(&self, other: &CompactSet) -> Compare
        ensures agree { (result ≡ Compare.Agree) ↔ Agree self.now other.now }
        ensures differ { (result ≡ Compare.Differ) ↔ Differ self.now other.now }
        ensures apart { (result ≡ Compare.Apart) ↔ Apart self.now other.now }
    {
        match (&self.kept, &other.kept) {
            (Kept::Sha256(one), Kept::Sha256(other)) => compare_values(one, other),
            _ => self.set().compare(&other.set()),
        }
    }

    /// A copy of the set.
    pub(crate) fn copy(&self, alloc: Global) -> Result<CompactSet, AllocError>
        ensures { IfOk result (λ copy. copy ≡ self.now) }
    {
        CompactSet::of(alloc, self.set())
    }
}

/// Compares the values of an algorithm that two sets have alone.
fn compare_values(one: &[u8; 32], other: &[u8; 32]) -> Compare
    ensures { result ≡ compared (only in_sha256 one.now) (only in_sha256 other.now) }
{
    if one == other {
        Compare::Agree
    } else {
        Compare::Differ
    }
}

impl PartialEq for CompactSet {
    ghost eq = { same_set };

    ghost laws = { same_set_partial_equivalence };

    fn eq(&self, other: &CompactSet) -> bool {
        self.set() == other.set()
    }
}

impl FromBorrowed for CompactSet {
    ghost is_of = { IsDigestSet };

    /// Reads a JSON object as a digest set.
    fn from_borrowed(alloc: Global, value: &Value<'_>) -> Result<Option<CompactSet>, AllocError> {
        match digest_set(value) {
            None => Ok(None),
            Some(set) => Ok(Some(CompactSet::of(alloc, set)?)),
        }
    }
}
