//! What checks signatures.
ghost use Rattle.std.specs.Prelude.{◌≡◌, IfOk, IfSome, OnErr, OnOk, option_map};
ghost use Rattle.it_message.specs.Message.{joined};
ghost use Rattle.it_dsse.specs.Meter.{raised};
ghost use Rattle.it_dsse.specs.Panel.{KeyNumber, Panel};
ghost use Rattle.it_dsse.specs.Signed.{tries_for};
ghost use Rattle.it_dsse.specs.Vouched.{is_vouched};

use crate::envelope::Signature;
use crate::key_name::KeyName;
use crate::key_object::KeyObject;
use crate::meter::Meter;
use std::alloc::AllocError;

/// Knows keys, and decides which signatures are valid.
pub trait Checks: Drop {
    /// A key that is known, as it is held while its signatures are tried.
    type Found: Drop;

    // which keys are known, and which signatures are valid
    ghost panel: { Self → Panel };

    // the key's number in the panel
    ghost number: { Self → Self.Found → KeyNumber };

    // the key was found by these checks
    ghost stands: { Self → Self.Found → Type 0 };

    /// The key that the id and the object name, or `None` where no such key is known.
    fn find(&self, id: &str, object: &KeyObject) -> Option<Self::Found>
        ensures key { option_map (number self.now) result
            ≡ (panel self.now).key_of id.now object.now }
        ensures stands { IfSome result (stands self.now) };

    /// Whether one of the signatures is admitted for `id` and is a valid signature, by the key, of
    /// the message that the parts make. The meter rises by the number of admitted signatures up to
    /// and including the first valid one.
    ///
    /// # Errors
    ///
    /// `AllocError` where memory was refused, or where the checks refuse to check more signatures.
    /// The meter stays as it was.
    fn any_valid(
        &self,
        key: &Self::Found,
        message: &[&[u8]],
        signatures: &[Signature],
        id: &str,
        meter: &mut Meter,
    ) -> Result<bool, AllocError>
        requires { stands self.now key.now }
        ensures answer { IfOk result (λ valid. valid ≡ is_vouched (panel self.now) id.now
            (number self.now key.now) (joined message.now) signatures.now) }
        ensures counted { OnOk result (meter.new ≡ raised meter.old (tries_for (panel self.now)
            id.now (number self.now key.now) (joined message.now) signatures.now)) }
        ensures kept { OnErr result (meter.new ≡ meter.old) };

    /// The key's name. Takes no memory.
    fn name(&self, key: &Self::Found) -> KeyName
        ensures { result ≡ number self.now key.now };
}
