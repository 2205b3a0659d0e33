//! A run of a command over files in memory.
use crate::runs::fake_files::FakeFiles;
use crate::runs::node::Placed;
use it_program::{exit_status, run_words};
use it_tables::devices::words;
use std::alloc::{AllocError, Global};

/// The result of a run.
#[derive(Drop)]
pub(crate) struct Ran {
    /// The exit status.
    pub(crate) status: u8,
    /// What went out, and then why the command stopped, where it did.
    pub(crate) text: Vec<u8>,
}

/// Runs a command over the files. Blanks separate its words; the first is the program's name.
pub(crate) fn run_over(alloc: Global, files: &[Placed], command: &str) -> Result<Ran, AllocError> {
    let words = words(alloc, command)?;
    let mut text = Vec::new(alloc);
    let mut notes = Vec::new(alloc);
    let disk = (FakeFiles { files }, alloc);
    let outcome = run_words(&disk, words.as_slice(), &mut text, &mut notes);
    if let Err(stop) = &outcome {
        text.extend_from_slice(format!(in alloc; "{stop}")?.as_bytes())?;
    }
    Ok(Ran {
        status: exit_status(&outcome),
        text,
    })
}
