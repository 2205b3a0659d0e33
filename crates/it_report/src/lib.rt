//! The result of a verification, as values and as a report: verdicts, refusals and their faults.
#![tactic(auto)]

mod fault_lines;
pub mod laws;
mod lines;
pub mod name;
pub mod place;
pub mod refusal;
mod reporting;
mod side;
pub mod verdict;

pub use reporting::{refused_report, report};
pub use side::side_text;
