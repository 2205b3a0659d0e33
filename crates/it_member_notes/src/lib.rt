//! Notes on policies and layouts: what is in them but not looked at, and what reads but may not be
//! what its author meant. Every note is true.
#![tactic(auto)]

mod key_member_line;
pub mod key_member_note;
mod key_notes;
mod layout_line;
pub mod layout_note;
mod list_notes;
pub mod member_notes;
mod named_layout;
mod notes;
mod object_at;
mod place_words;
mod places;
mod quoted;
mod rule_list_line;
pub mod rule_list_note;
mod rule_notes;
mod side_rules;
mod unread;
mod unread_line;
pub mod unread_member;

pub use list_notes::{ends_open, rule_list_notes};
pub use notes::{layout_notes, policy_notes};
pub use rule_notes::layout_rule_notes;
pub use side_rules::{rules_of_inspection, rules_of_step};
