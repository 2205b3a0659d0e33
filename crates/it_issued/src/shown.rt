//! What certificate logs were shown.
use it_trust_root::RootLog;

/// Certificate logs, and what they were shown.
#[derive(Drop)]
pub(crate) struct Shown<'b> {
    /// The logs.
    pub(crate) logs: &'b [RootLog],
    /// The key of the issuer, as a SubjectPublicKeyInfo.
    pub(crate) issuer_key: &'b [u8],
    /// The bytes of the certificate without its timestamps.
    pub(crate) bare: &'b [u8],
}
