//! Signatures.
ghost use Rattle.std.specs.Prelude.{◌↔◌, IsTrue};
ghost use Rattle.it_message.specs.Message.{joined};
ghost use Rattle.it_p384.specs.Signature.{IsSignature, IsSignatureOfDigest};

use crate::key::PublicKey;
use crate::verification::is_signed;
use it_ecdsa_der::read_signature_value;
use it_message::message_sha384;

/// Whether `signature` is the key's signature of the message that the parts make when they are
/// joined (FIPS 186-5, section 6.4.2, with SHA-384): an ECDSA-Sig-Value in DER. Takes no memory.
pub fn is_signature(key: &PublicKey, message: &[&[u8]], signature: &[u8]) -> bool
    ensures { IsTrue result ↔ IsSignature key.now (joined message.now) signature.now }
{
    is_signature_of_digest(key, &message_sha384(message), signature)
}

/// The same for a message whose SHA-384 is given, so that one message is hashed once for many keys
/// and signatures. Bytes that are no ECDSA-Sig-Value cost no arithmetic.
pub fn is_signature_of_digest(key: &PublicKey, digest: &[u8; 48], signature: &[u8]) -> bool
    ensures { IsTrue result ↔ IsSignatureOfDigest key.now digest.now signature.now }
{
    match read_signature_value(signature) {
        None => false,
        Some(value) => is_signed(key, digest, value.r, value.s),
    }
}
