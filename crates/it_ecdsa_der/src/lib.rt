//! The two numbers of an ECDSA signature over any curve of at most 384 bits, from their strict
//! encoding (DER).
#![tactic(auto)]

mod integer;
mod signature_value;

pub use signature_value::{SignatureValue, read_signature_value};
