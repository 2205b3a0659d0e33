//! What lines are asked about signatures by one key.
ghost use Rattle.std.specs.Prelude.{None};
ghost use Rattle.it_vouched.specs.Check.{vouched_check};

use crate::identity_key::IdentityKey;
use crate::vouched_lines::VouchedLines;
use it_dsse::check::SignatureCheck;
use it_dsse::key_object::KeyObject;
use it_dsse::meter::Meter;

/// What lines vouch for, and the key by which signatures are to be valid.
#[derive(Drop)]
pub(crate) struct Asked<'a> {
    pub(crate) lines: &'a VouchedLines,
    pub(crate) key: &'a IdentityKey,
}

impl<'a> SignatureCheck for Asked<'a> {
    ghost meaning = { λ asked. record {
      key_of = λ id object. None;
      is_valid = λ n message sig.
          (vouched_check asked.lines.now).is_valid asked.key.now message sig;
    } };

    /// No key is looked up: there is only the one.
    fn key(&self, _id: &str, _object: &KeyObject) -> Option<u32> {
        None
    }

    /// Whether some line with the message and `sig` vouches for the key.
    fn valid(&self, _key: u32, message: &[&[u8]], sig: &[u8], meter: &mut Meter) -> bool {
        meter.raise();
        self.lines.is_valid(self.key, message, sig)
    }
}
