//! Paths that no artifact rule ties to a step of a layout: what a `MATCH` rule takes from the
//! products of a step is tied to that step, and what any other rule takes is not.
#![tactic(auto)]

mod marks;
mod ties;
mod untied;

pub use untied::untied_paths;
