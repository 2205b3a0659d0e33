//! Notes on what in a trusted root is passed over: sentences for people, each of which is true.
//!
//! ```
//! let logs = notes_on_logs(alloc, &root)?;
//! let authorities = notes_on_authorities(alloc, &mut budget, &root)?;
//! ```
#![tactic(auto)]

mod authority;
mod authority_line;
mod authority_notes;
mod certificates;
mod chain;
mod front;
pub mod laws;
mod log_line;
mod log_notes;
mod shortfall;

pub use authority::authority_shortfall;
pub use authority_notes::notes_on_authorities;
pub use log_notes::notes_on_logs;
pub use shortfall::{AuthorityShortfall, ChainShortfall};
