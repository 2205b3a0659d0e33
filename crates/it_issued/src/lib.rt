//! Whether a leaf was issued by a trusted authority (RFC 5280, section 6.1) and logged by a trusted
//! certificate log (RFC 6962), or which condition it misses.
//!
//! ```
//! let Some(authority) = read_authority(alloc, budget, listed)? else { .. };
//! let missed = issue_shortfall(alloc, budget, &authority, &leaf.certificate, moment)?;
//! let issuer = &authority.certificates[0];
//! let unlogged = log_shortfall(alloc, budget, logs, issuer, &leaf.certificate)?;
//! ```
#![tactic(auto)]

mod authority;
mod by_log;
mod issued;
mod logged;
mod shortfall;
mod shown;
mod signature;

pub use authority::{UsableAuthority, read_authority};
pub use issued::issue_shortfall;
pub use logged::log_shortfall;
pub use shortfall::{IssueShortfall, LogShortfall};
pub use signature::is_signed_by;
