//! What a key is asked of an envelope.
use crate::envelope::Signature;

/// What a key is asked of an envelope: whether one of its signatures is admitted for an id, and
/// valid by the key for the message that the parts make.
pub struct Asked<'a> {
    /// The parts of the message, in their order.
    pub message: &'a [&'a [u8]],
    /// The signatures of the envelope.
    pub signatures: &'a [Signature],
    /// The id that the signatures must be admitted for.
    pub id: &'a str,
}

impl Drop for Asked<'_> {
    fn drop(self) {
        let Asked {
            message: _,
            signatures: _,
            id: _,
        } = self;
    }
}
