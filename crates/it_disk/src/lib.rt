//! What is at the paths that a command names: files up to a limit, rings, key objects and trusted
//! roots, folders of links and of records, and entries of folders; and why the program stops.
//!
//! No contract can say what a path of the system holds. So functions that read are generic in
//! `Disk`, and a command is proved for every relation between paths and what is read there
//! (`Holdings`).
//!
//! ```
//! let links = rt.links("links", 8, true)?;
//! let ring = read_ring(rt, "ring.json")?;
//! ```
#![tactic(auto)]

mod disk;
mod entries;
mod fault;
mod files;
mod folders;
mod left_out;
mod listing;
mod reason;
mod records;
mod ring_flaw;
mod root_flaw;
mod shown;
mod signature_fault;
mod so_far;
mod system_fault;
mod tree;

pub use disk::Disk;
pub use fault::Fault;
pub use files::{
    MOST_BYTES, bytes, bytes_if_given, read_keys, read_limited, read_ring, read_trusted_root,
};
pub use folders::{Kind, Links, read_links};
pub use left_out::{LeftOut, TooMany, note_left_out, too_many};
pub use listing::{Listed, list};
pub use records::read_records;
pub use ring_flaw::{EntryFlaw, RingFlaw};
pub use root_flaw::RootFlaw;
pub use shown::Shown;
pub use signature_fault::SignatureFault;
pub use tree::Tree;
