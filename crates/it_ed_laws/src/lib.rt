//! Laws about points of the curve edwards25519 (RFC 8032, section 5.1): which points are on it, and
//! what doubles, sums with the neutral point and sums with opposites are.
#![tactic(auto)]

pub mod laws;
