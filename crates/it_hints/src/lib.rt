//! Under which key id that its signatures name a key signed an envelope, where that is not its own
//! id.
#![tactic(auto)]

pub mod signed_as;
