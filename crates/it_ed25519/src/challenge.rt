//! The number k, which ties a signature to its key and its message.
ghost use Rattle.std.specs.Prelude.{◌≡◌};
ghost use Rattle.it_ed25519.specs.Signature.{challenge_of};
ghost use Rattle.it_message.specs.Message.{joined};

use it_ed_scalar::scalar::Scalar;
use sha2::{Digest, Sha512};

/// The number k (RFC 8032, section 5.1.7, step 2), where `r` is the first half of a signature, and
/// the parts of the message are joined. Takes no memory.
pub(crate) fn challenge(r: &[u8], key: &[u8; 32], message: &[&[u8]]) -> Scalar
    ensures { result ≡ challenge_of r.now key.now (joined message.now) }
{
    let mut hasher = Sha512::new();
    hasher.update(r);
    hasher.update(key);
    for part in message {
        hasher.update(part);
    }
    Scalar::reduce(&hasher.finalize())
}
