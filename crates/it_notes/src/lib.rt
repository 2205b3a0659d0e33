//! Notes on a verification: sentences for people, which say more than the report does about why a
//! delivery was refused and what was not used. Each note is true.
#![tactic(auto)]

mod bad_parts;
mod delivered;
mod details;
mod each_line;
mod expiry;
pub mod fault_level;
pub mod file_detail;
pub mod found_in_documents;
mod inspections;
mod key_notes;
pub mod known;
pub mod layout_envelope;
pub mod layout_notes;
mod level_notes;
pub mod lines;
pub mod notes;
mod owners;
mod patterns;
pub mod place_notes;
mod provenance;
mod provenance_lines;
pub mod record_note;
mod records;
mod refusal_notes;
mod room;
mod rules;
mod steps;
mod text;
