//! Sigstore's trusted root, from its JSON form: the logs and the authorities that are trusted, and
//! when.
//!
//! ```
//! let Some(root) = read_root(alloc, bytes)? else { .. };
//! ```
#![tactic(auto)]

mod authority;
pub mod laws;
mod listed_log;
mod root;
mod root_log;
mod root_part;
mod short_list;
mod time;
mod window;

pub use authority::{Authority, RawBytes};
pub use root::{TrustedRoot, read_root, root_or_fault};
pub use root_log::{RootLog, Unusable};
pub use root_part::{ListPart, RootFault, RootList, RootPart};
