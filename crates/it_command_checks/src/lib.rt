//! The checks of a command with a trusted root: its rings of secrets, public keys, and what lines
//! of provenance vouch for.
#![tactic(auto)]

pub mod command_checks;
pub mod laws;
