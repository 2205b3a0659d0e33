//! The signature check, which the caller supplies.
ghost use Rattle.std.specs.Prelude.{◌≡◌};
ghost use Rattle.it_dsse.specs.Check.{Check};
ghost use Rattle.it_message.specs.Message.{joined};
ghost use Rattle.it_dsse.specs.Meter.{raised};
ghost use Rattle.it_dsse.specs.Vouched.{is_vouched_by, tries_by};

use crate::envelope::Signature;
use crate::key_object::KeyObject;
use crate::meter::Meter;

/// Knows keys by numbers, and decides which signatures are valid. DSSE v1.0 leaves both to its
/// user.
///
/// Checks are asked as a panel, a list of checks, which names a key by the place of its check and
/// its number there. Checks at different places are assumed to hold different keys: keys are never
/// compared across places.
pub trait SignatureCheck: Drop {
    // which keys the check knows, and which signatures are valid
    ghost meaning: { Self → Check };

    /// The number of the key that the id and the object name, or `None` where the check knows no
    /// such key. Equal numbers mean the same key.
    fn key(&self, id: &str, object: &KeyObject) -> Option<u32>
        ensures { result ≡ (meaning self.now).key_of id.now object.now };

    /// Whether `sig` is a valid signature, by the key of this number, of the message that the parts
    /// make when they are joined. Counts one check in the meter.
    fn valid(&self, key: u32, message: &[&[u8]], sig: &[u8], meter: &mut Meter) -> bool
        ensures answer { result ≡ (meaning self.now).is_valid key (joined message.now) sig.now }
        ensures counted { meter.new ≡ raised meter.old 1 };

    /// Whether one of the signatures is admitted for `id` and is a valid signature, by the key of
    /// this number, of the message that the parts make. The meter rises by the number of admitted
    /// signatures up to and including the first valid one. A check that can try many signatures at
    /// the cost of one overrides this default.
    fn any_valid(
        &self,
        key: u32,
        message: &[&[u8]],
        signatures: &[Signature],
        id: &str,
        meter: &mut Meter,
    ) -> bool
        ensures answer { result ≡ is_vouched_by (meaning self.now) id.now key (joined message.now)
            signatures.now }
        ensures counted { meter.new ≡ raised meter.old (tries_by (meaning self.now) id.now key
            (joined message.now) signatures.now) }
    {
        for signature in signatures {
            let sig = signature.sig.as_slice();
            if signature.is_admitted(id) && self.valid(key, message, sig, meter) {
                return true;
            }
        }
        false
    }
}
