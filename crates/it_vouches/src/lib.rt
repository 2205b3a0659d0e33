//! Whom a Sigstore bundle vouches for, by a trusted root: the identity that signed its envelope, or
//! why nobody.
//!
//! ```
//! let mut budget = Budget::new(MOST_CHECKS);
//! let trust = Trust::of(alloc, &mut budget, &root)?;
//! match judged(alloc, &mut budget, &trust, &bundle)? {
//!     Judged::For(voucher) => ..,
//!     Judged::Misses(shortfall) => shortfall.push_phrase(&mut text)?,
//! }
//! ```
#![tactic(auto)]

mod attestation;
mod attested;
mod claim;
mod entry_log;
mod issuer_shortfall;
mod judgement;
pub mod laws;
mod leaf_key;
mod leaf_phrases;
mod phrases;
mod question;
mod shortfall;
mod trust;
mod vouched;
mod voucher;

pub use issuer_shortfall::IssuerShortfall;
pub use judgement::Judged;
pub use leaf_phrases::unread_reason;
pub use shortfall::Shortfall;
pub use trust::{MOST_CHECKS, Trust};
pub use vouched::{judged, vouched_identity};
pub use voucher::Voucher;
