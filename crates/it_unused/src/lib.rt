//! Expectations of a policy that are unused in a delivery: earlier expectations leave no delivered
//! file to them.
#![tactic(auto)]

mod paths;
mod unused;
mod used;

pub use unused::unused_expectations;
