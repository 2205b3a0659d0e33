//! The words of the command line of `itv`.
#![tactic(auto)]

pub mod words;
