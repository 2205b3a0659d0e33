//! The nonces of ECDSA signatures over P-256: which signatures of an envelope are a signer's, and
//! which of several have the number r of a signature by a different key (FIPS 186-5, section 6.4).
//!
//! Each signature is made with a secret number of its own, and r follows from that number alone. So
//! signers that keep to the standard never share an r. From one signature, however, anybody can
//! compute further keys that accept it, or that accept the same r with another message: two keys
//! with one r are not known to be the keys of two signers.
#![tactic(auto)]

mod nonce_use;
mod shared;
mod signer;
mod uses;

pub use nonce_use::NonceUse;
pub use shared::{SharedNonce, shared_nonces};
pub use signer::{Role, Signer, copied_place};
pub use uses::envelope_uses;
