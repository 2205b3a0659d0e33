//! Messages in parts, as signatures are made of them: joined, and their digests (FIPS 180-4).
#![tactic(auto)]

mod digests;
mod joining;

pub use digests::{message_sha256, message_sha384};
pub use joining::join;
