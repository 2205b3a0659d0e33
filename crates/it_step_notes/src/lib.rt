//! The notes on a step for which too few keys signed: why the files that are claimed for it do not
//! count, and what is odd about its key ids and nearly matching file names. Each note is true.
#![tactic(auto)]

mod file_notes;
mod finding;
pub mod folder_note;
mod id_notes;
pub mod laws;
mod line;
mod near_names;
pub mod note;
mod room;
pub mod signed_layout;
mod signing_ids;
mod step_at;
pub mod sublayout;
mod threshold;

pub use threshold::threshold_notes;
