//! Which signatures of an envelope are valid for a key (DSSE v1.0, "Protocol"): all of them, and
//! the place of the first.
#![tactic(auto)]

mod first_place;
mod valid;
mod vouches;

pub use first_place::signature_place;
pub use valid::valid_signatures;
