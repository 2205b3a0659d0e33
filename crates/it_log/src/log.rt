//! Logs.

use crate::key::LogKey;
use crate::window::Window;

/// A log that is trusted: one of entries (Rekor), or one of certificates (RFC 6962).
#[derive(Drop)]
pub struct Log {
    /// The log's id.
    pub id: [u8; 32],
    /// The key by which the log signs.
    pub key: LogKey,
    /// When the log is trusted.
    pub window: Window,
}
