//! How much is looked at of what nobody is known to have signed.

/// The most bytes, in all, that are looked at though nobody is known to have signed them.
const MOST_BYTES: usize = 2_097_152;

/// How many bytes may still be looked at.
#[derive(Drop)]
pub(crate) struct Room {
    bytes: usize,
}

impl Room {
    /// All of them.
    pub fn new() -> Room {
        Room { bytes: MOST_BYTES }
    }

    /// Whether there is room for so many bytes. If so, there is less room from then on.
    pub fn takes(&mut self, bytes: usize) -> bool {
        if bytes > self.bytes {
            return false;
        }
        self.bytes -= bytes;
        true
    }
}
