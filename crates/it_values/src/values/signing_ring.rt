//! The ring of secrets that rows sign with, and key objects of its scheme.
use it_base::text::Text;
use it_dsse::key_object::KeyObject;
use it_dsse::ring::{HmacRing, RingFault};
use std::alloc::{AllocError, Global};

/// Each secret is its id's bytes, except that of `bobz`: `bob` with a zero byte at its end.
pub(crate) const RING: &str = r#"[{"id":"owner","secret":"6f776e6572"},
    {"id":"alice","secret":"616c696365"},{"id":"bobz","secret":"626F6200"},
    {"id":"bob","secret":"626f62"},{"id":"carol","secret":"6361726f6c"}]"#;

/// The ring in this text.
pub(crate) fn ring_of(alloc: Global, text: &str) -> Result<HmacRing, RingFault> {
    HmacRing::read(alloc, text.as_bytes())
}

/// An object of a symmetric key of this scheme, with nothing more about the key.
pub(crate) fn object_of(alloc: Global, scheme: &str) -> Result<KeyObject, AllocError> {
    Ok(KeyObject {
        keytype: Text::copy(alloc, "hmac")?,
        scheme: Text::copy(alloc, scheme)?,
        public: Text::copy(alloc, "")?,
        identity: Text::copy(alloc, "")?,
        issuer: Text::copy(alloc, "")?,
    })
}
