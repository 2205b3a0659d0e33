//! Ed25519 public keys and their signatures (RFC 8032, section 5.1).
#![tactic(auto)]

mod challenge;
pub mod public_key;
pub mod signature;

pub use public_key::PublicKey;
pub use signature::is_signature;
