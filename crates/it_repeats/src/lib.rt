//! Members that come again in one object of a policy or a layout.
//! What is found in a text is exactly what its definition finds, in the order of the text.
#![tactic(auto)]

mod again;
pub mod laws;
mod part;
pub mod repeated_member;
mod repeats;
pub mod root;

pub use repeats::{repeated_in_tree, repeated_members};
