//! The check of one message by one key.
ghost use Rattle.std.specs.Prelude.{None};
ghost use Rattle.it_public_keys.specs.Validity.{is_signature_with};

use crate::key::Key;
use it_dsse::check::SignatureCheck;
use it_dsse::key_object::KeyObject;
use it_dsse::meter::Meter;

/// A key, and the message digest that it needs. The digest is computed before any signature is
/// tried, so once, however many there are.
#[derive(Drop)]
pub(crate) struct Prepared<'k> {
    pub(crate) key: &'k Key,
    pub(crate) digest: [u8; 32],
}

impl<'k> SignatureCheck for Prepared<'k> {
    ghost meaning = { λ prepared. record {
      key_of = λ id object. None;
      is_valid = λ n message sig. is_signature_with prepared.key.now prepared.digest message sig;
    } };

    /// No key is looked up: there is only the one.
    fn key(&self, _id: &str, _object: &KeyObject) -> Option<u32> {
        None
    }

    /// Whether `sig` is the key's signature of the message.
    fn valid(&self, _key: u32, message: &[&[u8]], sig: &[u8], meter: &mut Meter) -> bool {
        meter.raise();
        self.key.is_signature_with(&self.digest, message, sig)
    }
}
