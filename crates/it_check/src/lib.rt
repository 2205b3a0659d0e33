//! `itv check`: what is found in a policy and in a layout, with no signature looked at.
#![tactic(auto)]

mod check_output;
pub mod documents;
mod expectation_sentences;
mod finding_lines;
mod finding_names;
mod finding_place;
mod finding_sentence;
mod found;
mod identity_sentences;
mod member_pointers;
mod member_sentences;
mod null_key_sentence;
mod part_notes;
pub mod pointer_form;
mod pointers;
mod repeated_pointer;
mod rule_sentences;
mod shared_key_sentence;
mod step_key_sentences;
mod token;
mod writing;

pub use check_output::run_check;
pub use finding_lines::{MOST_WRITTEN, push_finding, push_findings, push_more, push_start};
pub use finding_names::finding_name;
pub use finding_place::{finding_document, push_pointer};
pub use finding_sentence::push_sentence;
pub use found::{findings_in_layout, findings_in_policy};
pub use writing::{push_text, push_told};
