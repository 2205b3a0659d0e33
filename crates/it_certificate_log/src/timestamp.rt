//! One signed certificate timestamp.
ghost use Rattle.std.specs.Prelude.{◌≡◌, ◌++◌, ◌∷◌, ℕ, List, [], MatchOption};
ghost use Rattle.it_certificate_log.specs.Timestamp.{Stamp, TimestampOf, stamp_of};

use crate::counted::{first_counted, front_of};

/// The version of timestamps, v1.
const VERSION: [u8; 1] = [0];

/// ECDSA with SHA-256 (RFC 5246, section 7.4.1.4.1).
const ECDSA_WITH_SHA256: [u8; 2] = [4, 3];

/// A signed certificate timestamp (RFC 6962, section 3.2).
#[derive(Drop)]
pub struct Timestamp<'b> {
    /// The log's id, 32 bytes.
    pub log: &'b [u8],
    /// The moment, in milliseconds since 1970-01-01T00:00:00Z: 8 bytes, highest first.
    pub moment: &'b [u8],
    /// Its extensions.
    pub extensions: &'b [u8],
    /// The log's signature.
    pub signature: &'b [u8],
}

/// The timestamp that the bytes are. `None` where they are none of version 1, or one that is signed
/// by another algorithm than ECDSA with SHA-256.
pub fn timestamp_in(item: &[u8]) -> Option<Timestamp<'_>>
    ensures { MatchOption result ((s : Stamp) → TimestampOf item.now s → ⊥)
        (λ t. TimestampOf item.now (stamp_of t)) }
{
    let version = front_of(item, 1)?;
    if version.bytes != VERSION.as_slice() {
        return None;
    }
    let log = front_of(version.rest, 32)?;
    let moment = front_of(log.rest, 8)?;
    let extensions = first_counted(moment.rest)?;
    let algorithm = front_of(extensions.rest, 2)?;
    if algorithm.bytes != ECDSA_WITH_SHA256.as_slice() {
        return None;
    }
    let signature = first_counted(algorithm.rest)?;
    if !signature.rest.is_empty() {
        return None;
    }
    Some(Timestamp {
        log: log.bytes,
        moment: moment.bytes,
        extensions: extensions.bytes,
        signature: signature.bytes,
    })
}
