//! The command `itv verify` over what was handed in: what it writes, and how it ends.
#![tactic(auto)]

mod answer;
mod before_notes;
mod behind;
mod full_output;
pub mod output_form;
mod output_text;
mod shown_findings;
mod shown_found;
mod signer_notes;
mod strict_answer;
pub mod strict_fault;
mod summary_text;
mod telling;
mod told_lines;
pub mod verification;
pub mod verify_strictly;
pub mod verify_with_notes;
mod writing;
