//! How many objects a JSON text can hold, by its braces.
#![tactic(auto)]

mod braces;
pub mod laws;

pub use braces::braces_in;
