//! ECDSA over P-256 with SHA-256 (FIPS 186-5): public keys as SubjectPublicKeyInfo, and the
//! verification of signatures.
//!
//! ```
//! let key = PublicKey::from_info(&info)?;
//! let is_good = is_signature(&key, &[b"The message, ", b"in parts"], &signature);
//! ```
//!
//! Nothing here is secret, as no key is made and nothing is signed; so nothing here takes care to
//! run in constant time.
#![tactic(auto)]

mod key;
pub mod laws;
mod number;
mod signature;
mod signature_value;
mod verification;

pub use key::PublicKey;
pub use signature::{is_signature, is_signature_of_digest};
pub use signature_value::{SignatureValue, read_signature_value};
