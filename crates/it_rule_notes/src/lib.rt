//! Notes on refusals: sentences about what a verification was given, which say more about a fault
//! than its report does. A note is made only if its sentence is true.
#![tactic(auto)]

pub mod cause;
pub mod counting_file;
mod counting_link;
pub mod difference;
mod digest_words;
pub mod disagree_note;
pub mod expiry_note;
mod judged;
pub mod judged_note;
pub mod level;
mod line;
pub mod link_file;
pub mod met;
pub mod met_note;
mod miss_line;
pub mod missed;
mod near;
pub mod owner_note;
pub mod payloads_note;
pub mod rule_note;
pub mod rule_place;
pub mod rule_words;
mod step_records;
pub mod sublayout_note;
pub mod target;
