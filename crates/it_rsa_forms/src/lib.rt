//! Signatures by RSA keys in two forms that are not taken as signatures: RSASSA-PKCS1-v1_5, and
//! RSASSA-PSS with a salt of any length, each with SHA-256 (RFC 8017). Which of them a signature is
//! tells why it is not valid.
//!
//! ```
//! let is_older = is_pkcs1_signature(alloc, info, message, signature)?;
//! let salt = pss_salt(alloc, info, message, signature)?;
//! ```
#![tactic(auto)]

mod encoded_message;
mod key_bytes;
pub mod laws;
mod pkcs1;
mod pss;

pub use pkcs1::is_pkcs1_signature;
pub use pss::pss_salt;
