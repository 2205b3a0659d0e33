//! What a bundle vouches for.
use it_identity::Identity;

/// Whom a bundle vouches for, and by an entry of which time.
#[derive(Drop)]
pub struct Voucher {
    /// The identity.
    pub identity: Identity,
    /// The time of an entry by which it vouches for the identity, in seconds since 1970.
    pub time: u64,
}
