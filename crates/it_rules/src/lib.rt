//! Artifact rules (in-toto specification 1.0, section 4.3.3): which rule of a list is the first to
//! fail on one side of an item, and with which path.
#![tactic(auto)]

pub mod claims;
pub mod folder_prefix;
pub mod free;
pub mod item;
mod judged;
mod listed_artifacts;
pub mod looked;
pub mod marks;
pub mod paths;
pub mod ranges;
pub mod reach;
pub mod rules;
