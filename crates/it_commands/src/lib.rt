//! The commands of `itv` that look at no delivery, over bytes and a writer: what each writes, and
//! how it ends.
#![tactic(auto)]

mod digest_output;
mod match_output;
mod no_envelope;
mod pae_output;
mod payload_output;
mod sign_notes;
mod sign_onto_output;
mod sign_output;
mod signed_output;

pub use digest_output::{check_name, run_digest, run_digest512};
pub use match_output::run_match;
pub use no_envelope::no_envelope_output;
pub use pae_output::run_pae;
pub use payload_output::run_payload;
pub use sign_notes::write_sign_notes;
pub use sign_onto_output::run_sign_onto;
pub use sign_output::{put_line, run_sign};
pub use signed_output::{names_output, run_signed, run_signed_by};
