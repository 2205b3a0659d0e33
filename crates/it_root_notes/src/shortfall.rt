//! What an authority misses.
use it_certificate::{CertificateShortfall, IssuingShortfall};

/// The condition that the certificates of an authority miss: the first of these. Certificates have
/// their places, from 0.
#[derive(Clone, Copy)]
pub enum ChainShortfall {
    /// There is none.
    Empty,
    /// The one at this place names another issuer than the next one's subject.
    OtherIssuer(usize),
    /// One of them may not issue others.
    MayNotIssue {
        /// The place of the first of these.
        place: usize,
        /// The condition that it misses.
        reason: IssuingShortfall,
    },
    /// The one at this place is not signed by the key of the next one.
    Unsigned(usize),
}

/// The condition that an authority misses where it cannot be used: the first of these.
#[derive(Clone, Copy)]
pub enum AuthorityShortfall {
    /// One of its certificates is not read.
    Unread {
        /// The place of the first of them, from 0.
        place: usize,
        /// The condition that its bytes miss.
        reason: CertificateShortfall,
    },
    /// Its certificates all read, and miss this.
    Chain(ChainShortfall),
}
