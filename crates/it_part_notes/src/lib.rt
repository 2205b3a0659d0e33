//! Notes on parts of the input that do not read: which member of a policy, a layout, an envelope or
//! a link is wrong, which rule, and what is wrong with a line of a digest list. Every note is true.
#![tactic(auto)]

mod bad_rule;
mod byte_at;
pub mod envelope_part_note;
mod fit;
pub mod flaw;
mod flaw_words;
pub mod instead;
mod item_at;
pub mod layout_part_note;
pub mod link_part_note;
pub mod member;
mod members;
pub mod moment_note;
mod moment_words;
mod part_line;
pub mod part_note;
pub mod policy_part_note;
mod problem;
pub mod shape;
mod sum_line;
pub mod sum_line_note;
mod sum_line_words;
pub mod sum_lines;
