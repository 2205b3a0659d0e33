//! The files at or below paths: a file itself, and all files below a folder.
//!
//! ```
//! let files = files_at_each(rt, paths)?;
//! ```
#![tactic(auto)]

mod files_below;

pub use files_below::files_at_each;
