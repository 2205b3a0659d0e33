//! How a command ends: its status or its fault, and the writing of its whole output.
#![tactic(auto)]

mod outcome;
pub mod output;

pub use outcome::{RunFault, Status, exit_of};
