//! Notes on identities that signed the provenance and are keys of no builder of a policy: sentences
//! for people, each of which is true. Where the policy lists an identity that differs only after
//! the last `@`, they name it.
//!
//! ```
//! let text = notes_on_signers(alloc, &policy, judged.vouched.as_slice())?;
//! ```
#![tactic(auto)]

mod before_at;
mod builder_keys;
mod listed;
mod nearest;
mod signer_line;
mod signer_notes;
mod signers;

pub use signer_notes::notes_on_signers;
