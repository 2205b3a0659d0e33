//! Entries of a transparency log (Rekor), as Sigstore bundles hold them: reading them, and whether
//! a log vouches by one for the signature of an envelope at a moment, or what it misses.
#![tactic(auto)]

mod agreement;
mod body_parts;
mod body_shortfall;
mod certificate_text;
mod checkpoint;
mod encoded;
mod entry;
mod entry_question;
mod hash;
mod inclusion_proof;
mod kind;
mod logged;
mod note;
mod note_shortfall;
mod number;
mod only_item;
mod payload_hash;
mod read_kind;
mod shortfall;
mod signature_line;
mod stamp;
mod vouching;

pub use body_shortfall::BodyShortfall;
pub use entry::LogEntry;
pub use entry_question::EntryQuestion;
pub use inclusion_proof::InclusionProof;
pub use kind::EntryKind;
pub use logged::Logged;
pub use note_shortfall::NoteShortfall;
pub use shortfall::EntryShortfall;
pub use vouching::{entry_shortfall, vouches};
