//! Public keys as PEM texts (RFC 7468).
//!
//! ```
//! let info = public_key_info(text)?;
//! let der = info.as_bytes();
//! ```
#![tactic(auto)]

mod body;
mod joined;
mod label;
mod public_key;

pub use label::label_of;
pub use public_key::{PublicKeyInfo, public_key_info};
