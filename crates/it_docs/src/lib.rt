//! The documents of a verification (in-toto specification 1.0, in-toto Attestation Statement v1,
//! SLSA Provenance v1): layouts, links, Statements, policies, and what they contain.
#![tactic(auto)]

pub mod fault;
pub mod laws;
pub mod layout;
pub mod layout_fault;
pub mod layout_reading;
pub mod link;
pub mod moment;
pub mod policy;
pub mod policy_fault;
pub mod policy_reading;
mod repeats;
pub mod rule;
pub mod statement;
pub mod step;

pub use it_base::{table, tree};
