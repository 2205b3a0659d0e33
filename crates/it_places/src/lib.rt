//! Places in a list, under texts.
#![tactic(auto)]

mod places;

pub use places::Places;
