//! Path patterns: reading them, and matching them against whole texts.
#![tactic(auto)]

mod body;
mod front;
mod item;
mod match_items;
mod pattern;
mod ranges;
mod reading;

pub use pattern::Pattern;
