//! What all kinds of public key share: whole numbers as bytes and powers modulo a number, as
//! definitions and lemmas, and laws by which the definitions fit one another.
#![tactic(auto)]

pub mod laws;
