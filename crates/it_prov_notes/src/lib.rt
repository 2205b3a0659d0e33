//! Notes on the provenance of a delivered file: what each line that might have been it misses. Each
//! note is true.
#![tactic(auto)]

mod builder;
pub mod delivery;
mod difference;
mod envelope;
mod hinted;
mod laid_out;
mod line;
mod lines_left;
pub mod note;
mod notes;
mod parameters;
pub mod patterns;
mod patterns_words;
mod provenance;
mod room;
mod shape;
mod signers;
mod statement;
mod words;

pub use laid_out::is_laid_out;
pub use notes::missing_notes;
