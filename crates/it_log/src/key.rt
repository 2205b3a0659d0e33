//! The keys of logs.
ghost use Rattle.std.specs.Prelude.{◌≡◌, MatchOption};
ghost use Rattle.it_p256.specs.Key.{Key, IsKey, info_of};

use it_p256::PublicKey;
use std::marker::Model;

/// The public key of a log, of P-256, with its encoding. To a contract it is the key.
#[derive(Drop)]
pub struct LogKey {
    key: PublicKey,
    info: [u8; 91],
}

impl Model for LogKey {
    ghost use Rattle.std.specs.Prelude.{◌≡◌};
    ghost use Rattle.it_p256.specs.Key.{Key, info_of};

    ghost Value = { Key };

    ghost view = { λ key. key.key };

    ghost invariant = { λ key. key.info ≡ info_of key.key };
}

impl LogKey {
    /// The key that the bytes encode as a SubjectPublicKeyInfo (RFC 5480, section 2), as
    /// `PublicKey::from_info` reads it. Takes no memory.
    pub fn from_info(info: &[u8]) -> Option<LogKey>
        ensures { MatchOption result
            ((key : Key) → IsKey key → info.now ≡ info_of key → ⊥)
            (λ key. IsKey key × (info.now ≡ info_of key)) }
    {
        let key = PublicKey::from_info(info)?;
        let info = info.first_chunk::<91>()?;
        Some(LogKey { key, info: *info })
    }

    /// The key. Takes no memory.
    pub fn key(&self) -> &PublicKey
        ensures { result.now ≡ self.now }
    {
        &self.key
    }

    /// The encoding of the key. Takes no memory.
    pub fn info(&self) -> &[u8]
        ensures { result.now ≡ info_of self.now }
    {
        self.info.as_slice()
    }
}
