//! The root to which an inclusion proof leads.
ghost use Rattle.std.specs.Prelude.{ℕ, List, ◌↔◌, IsTrue, MatchOption};
ghost use Rattle.it_merkle.specs.Proof.{Leads};

use crate::hashes::node_hash;
use crate::split::split_of;

/// Whether the path leads from this hash, of the entry at an index, to this root of a tree of
/// `size` entries (RFC 6962, section 2.1.1). A path of another length leads to no root, and neither
/// does one of an index that is not below `size`.
pub fn leads(hash: &[u8; 32], index: u64, size: u64, path: &[[u8; 32]], root: &[u8; 32]) -> bool
    ensures { IsTrue result ↔ Leads hash.now index size path.now root.now }
{
    match root_from(hash, index, size, path) {
        Some(found) => found == *root,
        None => false,
    }
}

/// The root to which the path leads from this hash, of the entry at an index in a tree of `size`
/// entries (RFC 6962, section 2.1.1). `None` where it leads to none: where it has another length
/// than the paths of that entry, or the index is not below `size`.
pub fn root_from(hash: &[u8; 32], index: u64, size: u64, path: &[[u8; 32]]) -> Option<[u8; 32]>
    ensures { MatchOption result
        ((root : List ℕ) → Leads hash.now index size path.now root → ⊥)
        (λ root. Leads hash.now index size path.now root) }
{
    if index >= size {
        return None;
    }
    if size == 1 {
        return if path.is_empty() { Some(*hash) } else { None };
    }
    let Some((last, rest)) = path.split_last() else {
        return None;
    };
    let split = split_of(size);
    if index < split {
        let left = root_from(hash, index, split, rest)?;
        return Some(node_hash(&left, last));
    }
    let right = root_from(hash, index - split, size - split, rest)?;
    Some(node_hash(last, &right))
}
