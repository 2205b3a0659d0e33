//! Merkle trees (RFC 6962, section 2.1): the hashes of entries, and whether an inclusion proof
//! leads from one to the root of a tree.
//!
//! ```
//! let included = leads(&leaf_hash(entry), index, size, &path, &root);
//! ```
#![tactic(auto)]

mod hashes;
mod inclusion;
pub mod laws;
mod split;

pub use hashes::{leaf_hash, node_hash};
pub use inclusion::{leads, root_from};
