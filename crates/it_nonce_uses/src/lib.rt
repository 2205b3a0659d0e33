//! The signatures by ECDSA over P-256 that count for an accepted delivery, with whose they are:
//! those of owners on the layout, and those of functionaries on what is claimed for the steps of
//! the layout and of the sublayouts that count.
#![tactic(auto)]

mod delivery_uses;
mod file_uses;
mod layout_uses;
mod owner_uses;
mod sublayout_uses;

pub use delivery_uses::uses_in_delivery;
