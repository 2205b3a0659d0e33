//! What counts for each step of a layout over a bundle: the key ids, and the files and the
//! signatures by which each counts.
#![tactic(auto)]

mod claimed;
mod counted_keys;
mod evidence;
pub mod laws;
mod listed;
mod places;

pub use evidence::step_evidence;
