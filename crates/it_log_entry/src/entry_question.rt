//! What is asked of an entry.
use crate::logged::Logged;

/// What an entry is to be about, and whether it needs an inclusion proof.
#[derive(Clone, Copy)]
pub struct EntryQuestion<'q> {
    /// What it is to be about.
    pub logged: &'q Logged<'q>,
    /// Whether it needs an inclusion proof.
    pub needs_proof: bool,
}
