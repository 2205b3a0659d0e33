//! What is asked of the entries of a bundle.
use it_certificate::Certificate;
use it_log_entry::Logged;

/// What is to be attested.
#[derive(Drop)]
pub(crate) struct Question<'q> {
    /// What an entry is to be about.
    pub(crate) logged: Logged<'q>,
    /// Whether it needs an inclusion proof.
    pub(crate) needs_proof: bool,
    /// The certificate of the key that signed.
    pub(crate) leaf: &'q Certificate<'q>,
}
