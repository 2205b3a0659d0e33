//! The bodies of verification summaries (SLSA v1.0, verification summary): what stands behind a
//! delivery that is accepted, as the next verifier down the line takes it.
#![tactic(auto)]

mod predicate;
mod subjects;
mod summary;

pub use summary::summary_body;
