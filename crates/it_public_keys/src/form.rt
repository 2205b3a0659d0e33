//! The form of signatures, before any arithmetic.
ghost use Rattle.std.specs.Prelude.{◌↔◌, IsTrue};
ghost use Rattle.it_public_keys.specs.Form.{EncodesAnyNumbers, EncodesNumbers, HasForm};

use crate::key::Key;
use it_p256::read_signature_value;

/// Whether `sig` has the form of a signature by the key: the length or, for P-256 and P-384, the
/// encoding. What lacks it is no signature by the key, of whatever message.
pub(crate) fn has_form(key: &Key, sig: &[u8]) -> bool
    ensures { IsTrue result ↔ HasForm key.now sig.now }
{
    match key {
        Key::Ed25519(_) => sig.len() == 64,
        Key::P256(_) => encodes_numbers(sig),
        Key::P384(_) => encodes_any_numbers(sig),
        Key::Rsa(key) => sig.len() == key.size(),
    }
}

/// Whether the bytes encode the two numbers of an ECDSA signature (RFC 3279, section 2.2.3).
fn encodes_numbers(sig: &[u8]) -> bool
    ensures { IsTrue result ↔ EncodesNumbers sig.now }
{
    match read_signature_value(sig) {
        Some(_numbers) => true,
        None => false,
    }
}

/// The same for numbers of any size, as far as 129 bytes encode them.
fn encodes_any_numbers(sig: &[u8]) -> bool
    ensures { IsTrue result ↔ EncodesAnyNumbers sig.now }
{
    match it_ecdsa_der::read_signature_value(sig) {
        Some(_numbers) => true,
        None => false,
    }
}
