//! The hashes of entries and of nodes.
ghost use Rattle.std.specs.Prelude.{◌≡◌};
ghost use Rattle.it_merkle.specs.Tree.{leaf_hash as hash_of_leaf, node_hash as hash_of_node};

use sha2::{Digest, Sha256};

// The bytes before what is hashed, which tell an entry and a node apart.
const LEAF: [u8; 1] = [0];

const NODE: [u8; 1] = [1];

/// The hash of an entry, which may be any bytes (RFC 6962, section 2.1). Takes no memory.
pub fn leaf_hash(entry: &[u8]) -> [u8; 32]
    ensures { result ≡ hash_of_leaf entry.now }
{
    let mut hasher = Sha256::new();
    hasher.update(&LEAF);
    hasher.update(entry);
    hasher.finalize()
}

/// The hash of a node, by the hashes of the two subtrees that it is over (RFC 6962, section 2.1).
pub fn node_hash(left: &[u8; 32], right: &[u8; 32]) -> [u8; 32]
    ensures { result ≡ hash_of_node left.now right.now }
{
    let mut hasher = Sha256::new();
    hasher.update(&NODE);
    hasher.update(left.as_slice());
    hasher.update(right.as_slice());
    hasher.finalize()
}
