//! The report of a verdict as JSON (RFC 8259), beside the report in lines.
#![tactic(auto)]

mod digests;
pub mod evidence;
mod evidence_items;
mod fault_members;
pub mod form;
pub mod full;
pub mod laws;
mod lists;
mod members;
mod parts;
mod reporting;
mod signer_item;
mod texts;

pub use reporting::json_report;
