//! What stands for each delivered file of a verification: the line of the provenance, the builder
//! that it names, the builder's level, and who signed the line, where a bundle vouches for it.
#![tactic(auto)]

mod evidence;
mod evidence_of;
mod found;
mod known_lines;
pub mod laws;
mod levels;
mod signer;

pub use evidence::file_evidence;
