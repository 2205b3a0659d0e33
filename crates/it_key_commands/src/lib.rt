//! The commands of `itv` on public keys, over bytes and a writer: who signed an envelope, an
//! envelope with a signature that was made elsewhere, and the file of keys.
#![tactic(auto)]

mod canonical_id;
mod fault;
mod identity_output;
mod key_file;
mod key_info;
mod key_output;
mod keys_file;
mod made_signature;
mod rsa_form;
mod sign_made_onto_output;
mod sign_made_output;
mod signature_flaw;
mod signed_by_keys_output;
mod signed_by_other;
mod signer;
mod two_numbers;

pub use fault::{FileFault, KeyFault, OtherText, SignatureFlaw};
pub use identity_output::run_identity;
pub use key_output::run_key;
pub use made_signature::MadeSignature;
pub use sign_made_onto_output::run_sign_made_onto;
pub use sign_made_output::run_sign_made;
pub use signed_by_keys_output::run_signed_by_keys;
pub use signed_by_other::other_signer;
