//! What an entry is to be about.

/// The signature of an envelope, and what it was made with.
#[derive(Clone, Copy)]
pub struct Logged<'a> {
    /// The payload of the envelope.
    pub payload: &'a [u8],
    /// The type of the payload.
    pub payload_type: &'a str,
    /// The bytes of the signature.
    pub signature: &'a [u8],
    /// The certificate of the key that signed, in DER.
    pub certificate: &'a [u8],
}
