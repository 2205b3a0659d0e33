//! The lines of a provenance in which each Sigstore bundle is replaced by its envelope, for readers
//! that know only envelopes.
//!
//! ```
//! let lines = unwrapped_lines(alloc, provenance)?;
//! ```
#![tactic(auto)]

pub mod laws;
mod lines;

pub use lines::unwrapped_lines;
