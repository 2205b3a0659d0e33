//! Signatures.
ghost use Rattle.std.specs.Prelude.{◌↔◌, IsTrue};
ghost use Rattle.it_message.specs.Message.{joined};
ghost use Rattle.it_rsa.specs.Signature.{IsSignature, IsSignatureOfDigest};

use crate::MOST_BYTES;
use crate::encoding::is_encoded;
use crate::key::PublicKey;
use it_message::message_sha256;

/// Whether `signature` is the key's signature of the message that the parts make when they are
/// joined: RSASSA-PSS (RFC 8017, section 8.1.2) with SHA-256, MGF1 with SHA-256 and a salt of 32
/// bytes. Takes no memory.
pub fn is_signature(key: &PublicKey, message: &[&[u8]], signature: &[u8]) -> bool
    ensures { IsTrue result ↔ IsSignature key.now (joined message.now) signature.now }
{
    is_signature_of_digest(key, &message_sha256(message), signature)
}

/// The same for a message whose SHA-256 is given, so that one message is hashed once for many keys
/// and signatures. A signature of another length than the modulus costs no arithmetic.
pub fn is_signature_of_digest(key: &PublicKey, digest: &[u8; 32], signature: &[u8]) -> bool
    ensures { IsTrue result ↔ IsSignatureOfDigest key.now digest.now signature.now }
{
    if signature.len() != key.size() {
        return false;
    }
    if !key.is_above(signature) {
        return false;
    }
    let mut room = [0; MOST_BYTES];
    let em = &mut room[..signature.len()];
    em.copy_from_slice(signature);
    key.open(em);
    is_encoded(digest, em)
}
