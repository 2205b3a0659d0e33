//! How many signatures an envelope may have where public keys are checked, and what a verification
//! leaves out for having more.
//!
//! ```
//! let within = lines_within_limit(alloc, provenance)?;
//! let too_many = signatures_over_limit(alloc, layout)?.is_some();
//! ```
#![tactic(auto)]

mod lines;
mod signatures;

pub use lines::{LineOver, LinesWithin, lines_within_limit};
pub use signatures::{MOST_SIGNATURES, file_over_limit, signatures_over_limit};
