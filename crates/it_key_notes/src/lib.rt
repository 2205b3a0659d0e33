//! Notes on key objects that no check knows: sentences for people, which say why. Each is true.
#![tactic(auto)]

mod known;
pub mod laws;
mod line;
pub mod reason;
mod reasons;
pub mod unknown_key;
mod unknown_keys;

pub use unknown_keys::{unknown_in, unknown_of_builders, unknown_under};
