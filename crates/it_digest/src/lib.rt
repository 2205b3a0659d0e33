//! Digests of delivered files: digest sets and their comparison, maps from path to digest set,
//! the SHA-256 of what a reader gives, and digest lists as `sha256sum` and `sha512sum` write them.
#![tactic(auto)]

pub mod artifacts;
pub mod compact;
pub mod compare;
pub mod digest;
mod digits;
pub mod listed;
pub mod reader;
pub mod sums;
