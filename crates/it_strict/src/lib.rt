//! What is found where a delivery is accepted: what in its policy, its layout and its sublayouts
//! may let through what their authors did not mean, the delivered files that are tied to no step,
//! the paths that one of two digest lists alone names, and the signatures of different keys that
//! share a nonce.
#![tactic(auto)]

pub mod below;
mod below_lines;
mod counting;
pub mod found;
pub mod laws;
pub mod listed_once;
mod listed_once_lines;
mod nonce_lines;
mod nonces;
mod untied;
mod untied_lines;
mod unused;

pub use below_lines::push_placed_finding;
pub use listed_once_lines::{LISTED_ONCE_NAME, list_document, push_once_sentence};
pub use nonce_lines::{
    SHARED_NONCE_NAME, keys_at, keys_document, keys_pointer, push_nonce_sentence,
};
pub use untied_lines::{UNTIED_NAME, UNTIED_POINTER, push_untied_sentence};
