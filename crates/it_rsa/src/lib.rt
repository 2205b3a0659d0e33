//! RSASSA-PSS with SHA-256 (RFC 8017): public keys as SubjectPublicKeyInfo, and the verification of
//! signatures.
//!
//! ```
//! let key = PublicKey::from_info(&info)?;
//! let is_good = is_signature(&key, &[b"The message, ", b"in parts"], &signature);
//! ```
//!
//! Nothing here is secret, as no key is made and nothing is signed; so nothing here takes care to
//! run in constant time.
#![tactic(auto)]

mod encoding;
mod info;
mod key;
pub mod laws;
mod mask;
mod signature;

pub use key::{PublicKey, exponent_number};
pub use mask::unmask;
pub use signature::{is_signature, is_signature_of_digest};

/// The most bytes that a modulus, and so a signature, may have.
pub(crate) const MOST_BYTES: usize = 512;
