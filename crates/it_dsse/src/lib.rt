//! DSSE envelopes (DSSE v1.0): reading, writing and signing them, and finding who signed them.
#![tactic(auto)]

pub mod asked;
pub mod boxed;
pub mod check;
pub mod checks;
mod code_check;
pub mod countersign;
mod decimal;
pub mod envelope;
pub mod key_name;
pub mod key_object;
pub mod laws;
mod mac;
pub mod meter;
pub mod payload_type;
mod pre_authentication;
pub mod ring;
pub mod ring_entry;
mod ring_ids;
mod ring_index;
pub mod sign;
mod signer;
mod signer_key;
mod signers;
pub mod written;

pub use mac::{hmac_sha256, hmac_sha256_parts};
pub use pre_authentication::pae;
pub use signer::{is_signer, signer_by};
pub use signer_key::{signed_by, signed_ids};
pub use signers::signed_ids_by;

/// Signing a body, under the name that callers use.
pub mod signing {
    pub use crate::countersign::{CountersignFault, NewSignature, countersign};
    pub use crate::sign::{SignFault, sign};
}
