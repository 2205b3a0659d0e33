//! Signed certificate timestamps (RFC 6962): the list of them in a certificate, each of them, and
//! the bytes that a certificate log signed.
//!
//! ```
//! let Some(items) = items_of(alloc, value)? else { .. };
//! let Some(timestamp) = timestamp_in(items[0]) else { .. };
//! let text = signed_text(alloc, issuer_key, bare, &timestamp)?;
//! ```
#![tactic(auto)]

mod bare;
mod counted;
mod items;
mod signed;
mod timestamp;

pub use bare::bare_bytes;
pub use items::items_of;
pub use signed::signed_text;
pub use timestamp::{Timestamp, timestamp_in};
