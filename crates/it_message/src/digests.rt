//! Digests of messages in parts.
ghost use Rattle.std.specs.Prelude.{◌≡◌};
ghost use Rattle.sha2.specs.Sha256.{sha256};
ghost use Rattle.sha2.specs.Sha512.{sha384};
ghost use Rattle.it_message.specs.Message.{joined};

use sha2::{Digest, Sha256, Sha384};

/// The SHA-256 of the message that the parts make when they are joined. Takes no memory.
pub fn message_sha256(message: &[&[u8]]) -> [u8; 32]
    ensures { result ≡ sha256 (joined message.now) }
{
    let mut hasher = Sha256::new();
    for part in message {
        hasher.update(part);
    }
    hasher.finalize()
}

/// The SHA-384 of the message that the parts make when they are joined. Takes no memory.
pub fn message_sha384(message: &[&[u8]]) -> [u8; 48]
    ensures { result ≡ sha384 (joined message.now) }
{
    let mut hasher = Sha384::new();
    for part in message {
        hasher.update(part);
    }
    hasher.finalize()
}
