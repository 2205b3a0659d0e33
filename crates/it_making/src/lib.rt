//! The bodies of envelopes, made from digest lists: links (in-toto specification
//! 1.0) and Statements (in-toto Attestation, Statement v1), of which those are written that carry
//! provenance (SLSA v1.0).
#![tactic(auto)]

mod artifact_maps;
mod digest_sets;
mod link_output;
mod nesting;
mod parameters;
mod statement_output;
mod statement_text;
mod subjects;

pub use link_output::run_link;
pub use statement_output::{StatementParts, run_statement};
pub use statement_text::statement_line;
pub use subjects::subject_value;
