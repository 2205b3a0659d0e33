//! Signatures.
ghost use Rattle.std.specs.Prelude.{◌↔◌, IsTrue};
ghost use Rattle.it_ed25519.specs.Signature.{IsSignature};
ghost use Rattle.it_message.specs.Message.{joined};

use crate::challenge::challenge;
use crate::public_key::PublicKey;
use it_ed_scalar::scalar::Scalar;

/// Whether the bytes of `signature` are a signature of the message under the key (RFC 8032, section
/// 5.1.7, without the cofactor). The parts of the message are joined. What is not 64 bytes long is
/// no signature. Takes no memory.
pub fn is_signature(key: &PublicKey, message: &[&[u8]], signature: &[u8]) -> bool
    ensures { IsTrue result ↔ IsSignature key.now (joined message.now) signature.now }
{
    if signature.len() != 64 {
        return false;
    }
    let (r, last) = signature.split_at(32);
    let mut s = [0; 32];
    s.copy_from_slice(last);
    match Scalar::from_bytes(&s) {
        None => false,
        Some(s) => {
            let k = challenge(r, key.as_bytes(), message);
            let expected = key.first_half(&s, &k);
            expected.as_slice() == r
        }
    }
}
