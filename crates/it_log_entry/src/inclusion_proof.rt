//! Inclusion proofs.
ghost use Rattle.std.specs.Prelude.{[], IfOk, codes};
ghost use Rattle.it_borrowed.specs.Tree.{as_data};
ghost use Rattle.it_base.specs.Finds.{Finds};
ghost use Rattle.it_base.specs.Parts.{IsPart, IsPartOr};
ghost use Rattle.it_base.specs.Sequence.{IsList};
ghost use Rattle.it_base.specs.Text.{IsText};
ghost use Rattle.it_log_entry.specs.InclusionProof.{IsHash, IsInclusionProof};

use crate::hash::{hash_part, hashes_in};
use crate::number::Number;
use it_base::sequence::Sequence;
use it_base::text::Text;
use it_borrowed::document::member;
use it_borrowed::parts::{FromBorrowed, part, part_or};
use json::Value;
use std::alloc::{AllocError, Global};

/// The most hashes that a proof may have.
const MOST_HASHES: usize = 63;

/// A proof that an entry is in a tree of the log (RFC 6962, section 2.1.1), with the checkpoint by
/// which the log signed the root of that tree.
#[derive(Drop)]
pub struct InclusionProof {
    /// The place of the entry in the tree, from 0.
    pub index: u64,
    /// How many entries the tree has.
    pub size: u64,
    /// The root of the tree.
    pub root: [u8; 32],
    /// The hashes beside the way to the root, the lowest first.
    pub path: Sequence<[u8; 32]>,
    /// The text of the checkpoint, not looked at yet.
    pub checkpoint: Text,
}

impl FromBorrowed for InclusionProof {
    ghost is_of = { IsInclusionProof };

    fn from_borrowed(
        alloc: Global,
        value: &Value<'_>,
    ) -> Result<Option<InclusionProof>, AllocError> {
        let Some(index) = part_or(alloc, value, "logIndex", Number::zero())? else {
            return Ok(None);
        };
        let Some(size) = part::<Number>(alloc, value, "treeSize")? else {
            return Ok(None);
        };
        let Some(root) = hash_part(alloc, value, "rootHash")? else {
            return Ok(None);
        };
        let Some(path) = path_of(alloc, value)? else {
            return Ok(None);
        };
        let Some(checkpoint) = checkpoint_of(alloc, value)? else {
            return Ok(None);
        };
        if path.as_slice().len() > MOST_HASHES {
            return Ok(None);
        }
        Ok(Some(InclusionProof {
            index: index.get(),
            size: size.get(),
            root,
            path,
            checkpoint,
        }))
    }
}

fn path_of(alloc: Global, value: &Value<'_>) -> Result<Option<Sequence<[u8; 32]>>, AllocError>
    ensures { IfOk result
        (Finds (IsPartOr (IsList IsHash) [] (codes "hashes") (as_data value.now))) }
{
    match member(value, "hashes") {
        None => Ok(Some(Sequence::from(Vec::new(alloc)))),
        Some(found) => hashes_in(alloc, found),
    }
}

fn checkpoint_of(alloc: Global, value: &Value<'_>) -> Result<Option<Text>, AllocError>
    ensures { IfOk result (Finds
        (IsPart (IsPart IsText (codes "envelope")) (codes "checkpoint") (as_data value.now))) }
{
    match member(value, "checkpoint") {
        None => Ok(None),
        Some(found) => part::<Text>(alloc, found, "envelope"),
    }
}
