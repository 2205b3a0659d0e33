//! Points of the curve edwards25519: their sums, and their encoding in 32 bytes (RFC 8032,
//! section 5.1).
#![tactic(auto)]

mod base_doubles;
mod base_table;
mod constants;
mod decoding;
pub mod multiplier;
pub mod point;
mod roots;
