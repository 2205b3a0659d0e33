//! A disk in memory: files by their paths, which commands read as they read those of the system.
//!
//! What a path holds follows from the list of the files alone (`specs/Files.antt`).
//!
//! ```
//! let memory = Memory::of(alloc, files)?;
//! let outcome = run_words(&memory, words, out, notes);
//! ```
#![tactic(auto)]

mod disk;
mod file;
pub mod laws;
mod memory;
mod names;
mod paths;

pub use file::File;
pub use memory::Memory;
