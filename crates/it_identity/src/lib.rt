//! Identities: who signed, as a certificate names it, and who says so; which of them a key object
//! describes, and their numbers.
#![tactic(auto)]

mod identity;
mod key_object;
pub mod laws;
mod name;

pub use identity::{Identity, is_short};
pub use name::{IdentityName, identity_name, name_of_texts};
