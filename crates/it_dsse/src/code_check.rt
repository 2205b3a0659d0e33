//! The check of signatures against one code.
ghost use Rattle.std.specs.Prelude.{◌≡◌, None, false, option_map, unwrap_or};
ghost use Rattle.std.specs.Str.{bytes_eq};

use crate::check::SignatureCheck;
use crate::key_object::KeyObject;
use crate::meter::Meter;

/// The code of a message under the key that is asked for, if there is one. It is computed before
/// the signatures are tried, and so only once, however many there are.
#[derive(Drop)]
pub(crate) struct CodeCheck {
    pub(crate) code: Option<[u8; 32]>,
}

impl SignatureCheck for CodeCheck {
    ghost meaning = { λ check. record {
      key_of = λ id object. None;
      is_valid = λ key message sig.
          unwrap_or (option_map (λ code. bytes_eq code sig) check.code) false;
    } };

    /// No key, since the code is already that of one key.
    fn key(&self, _id: &str, _object: &KeyObject) -> Option<u32> {
        None
    }

    /// Whether `sig` is the code.
    fn valid(&self, _key: u32, _message: &[&[u8]], sig: &[u8], meter: &mut Meter) -> bool {
        meter.raise();
        match &self.code {
            Some(code) => is_same_code(code, sig),
            None => false,
        }
    }
}

/// Whether a signature is a code. Where the lengths are equal, all bytes are compared, whichever
/// differ.
fn is_same_code(code: &[u8; 32], sig: &[u8]) -> bool
    ensures { result ≡ bytes_eq code.now sig.now }
{
    if sig.len() != code.len() {
        return false;
    }
    let mut is_same = true;
    for (place, byte) in code.iter().enumerate() {
        is_same &= *byte == sig[place];
    }
    is_same
}
