//! What the lines of provenance vouch for, by a trusted root: the identities that signed their
//! envelopes, and which signatures are so valid.
//!
//! ```
//! let judged = CountedLines::of(alloc, &root, provenance).judged?;
//! if let Some(key) = IdentityKey::in_object(&object) {
//!     let valid = judged.vouched.is_valid(&key, &[message], signature);
//! }
//! ```
#![tactic(auto)]

mod asked;
mod counted_lines;
mod describing;
mod identity_key;
mod joining;
mod judged_lines;
mod known_lines;
pub mod laws;
mod silent_line;
mod silent_notes;
mod vouched;
mod vouched_lines;

pub use counted_lines::CountedLines;
pub use describing::describes;
pub use identity_key::IdentityKey;
pub use judged_lines::JudgedLines;
pub use silent_line::SilentLine;
pub use silent_notes::notes_on_silent;
pub use vouched::Vouched;
pub use vouched_lines::VouchedLines;
