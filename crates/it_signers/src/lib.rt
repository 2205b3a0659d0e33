//! Who signed an envelope, or that of a Sigstore bundle, by checks of any kind: the ids of the key
//! objects whose keys, as the checks know them, made a valid signature.
//!
//! ```
//! let status = run_signers(alloc, file, &objects, &checks, out)?;
//! ```
#![tactic(auto)]

mod file_envelope;
mod signer_names;
mod signers_output;

pub use signers_output::run_signers;
