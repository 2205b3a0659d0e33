//! Checks that the caller boxed.
ghost use Rattle.std.specs.Prelude.{◌≡◌, ◌<◌, IfSome, length, map};
ghost use Rattle.it_message.specs.Message.{joined};
ghost use Rattle.it_dsse.specs.Meter.{raised};
ghost use Rattle.it_dsse.specs.Panel.{panel_of};
ghost use Rattle.it_dsse.specs.Signed.{message_of, tries_for};
ghost use Rattle.it_dsse.specs.Vouched.{is_vouched, is_vouched_by, tries_by};

use crate::asked::Asked;
use crate::check::SignatureCheck;
use crate::checks::Checks;
use crate::envelope::{Envelope, Signature};
use crate::key_name::KeyName;
use crate::key_object::KeyObject;
use crate::meter::Meter;
use crate::pre_authentication::{LengthDigits, parts_of};
use std::alloc::AllocError;

/// A panel of boxed checks, which was lent. A key's name is the place of its check and its number
/// there.
pub struct Boxed<'a> {
    /// The checks.
    pub panel: &'a [Box<dyn SignatureCheck>],
}

impl Drop for Boxed<'_> {
    fn drop(self) {
        let Boxed { panel: _ } = self;
    }
}

impl Checks for Boxed<'_> {
    type Found = (usize, u32);

    ghost panel = { λ s. panel_of
        (map (λ check. (SignatureCheck-box check).meaning check.value) s.panel.now) };

    ghost number = { λ s key. key };

    ghost stands = { λ s key. key.0 < length s.panel.now };

    fn find(&self, id: &str, object: &KeyObject) -> Option<(usize, u32)> {
        key_in(self.panel, id, object)
    }

    fn any_valid(
        &self,
        key: &(usize, u32),
        message: &[&[u8]],
        signatures: &[Signature],
        id: &str,
        meter: &mut Meter,
    ) -> Result<bool, AllocError> {
        let asked = Asked {
            message,
            signatures,
            id,
        };
        Ok(any_valid_in(self.panel, *key, &asked, meter))
    }

    fn name(&self, key: &(usize, u32)) -> KeyName {
        let (place, number) = *key;
        KeyName::numbered(place, number)
    }
}

/// The key that the id and the object name: the first place whose check knows it, and its number
/// there.
pub(crate) fn key_in(
    panel: &[Box<dyn SignatureCheck>],
    id: &str,
    object: &KeyObject,
) -> Option<(usize, u32)>
    ensures key { result ≡ (panel_of (map meaning panel.now)).key_of id.now object.now }
    ensures placed { IfSome result (λ key. key.0 < length panel.now) }
{
    for (place, check) in panel.iter().enumerate() {
        if let Some(number) = number_of(check, id, object) {
            return Some((place, number));
        }
    }
    None
}

/// Whether some signature that is admitted for an id is valid for a key of the panel. The signed
/// message is handed over in the parts of its pre-authentication encoding.
pub(crate) fn is_vouched_in(
    envelope: &Envelope,
    id: &str,
    key: (usize, u32),
    panel: &[Box<dyn SignatureCheck>],
    meter: &mut Meter,
) -> bool
    requires placed { key.0 < length panel.now }
    ensures answer { result ≡ is_vouched (panel_of (map meaning panel.now)) id.now key
        (message_of envelope.now) envelope.now.signatures }
    ensures counted { meter.new ≡ raised meter.old (tries_for (panel_of (map meaning panel.now))
        id.now key (message_of envelope.now) envelope.now.signatures) }
{
    let kind = envelope.payload_type.as_str();
    let body = envelope.payload.as_slice();
    let mut digits = LengthDigits::new();
    let message = parts_of(kind, body, &mut digits);
    let asked = Asked {
        message: &message,
        signatures: envelope.signatures.as_slice(),
        id,
    };
    any_valid_in(panel, key, &asked, meter)
}

/// Whether one of the signatures is admitted and valid for a key, by the check at the key's place.
/// The meter counts those that the check tries.
fn any_valid_in(
    panel: &[Box<dyn SignatureCheck>],
    key: (usize, u32),
    asked: &Asked<'_>,
    meter: &mut Meter,
) -> bool
    requires placed { key.0 < length panel.now }
    ensures answer { result ≡ is_vouched (panel_of (map meaning panel.now)) asked.now.id.now key
        (joined asked.now.message.now) asked.now.signatures.now }
    ensures counted { meter.new ≡ raised meter.old (tries_for (panel_of (map meaning panel.now))
        asked.now.id.now key (joined asked.now.message.now) asked.now.signatures.now) }
{
    let (place, number) = key;
    any_valid(&panel[place], number, asked, meter)
}

/// The number of a key, if the check knows it.
fn number_of(check: &Box<dyn SignatureCheck>, id: &str, object: &KeyObject) -> Option<u32>
    ensures { result ≡ (meaning check.now).key_of id.now object.now }
{
    check.key(id, object)
}

fn any_valid(
    check: &Box<dyn SignatureCheck>,
    number: u32,
    asked: &Asked<'_>,
    meter: &mut Meter,
) -> bool
    ensures answer { result ≡ is_vouched_by (meaning check.now) asked.now.id.now number
        (joined asked.now.message.now) asked.now.signatures.now }
    ensures counted { meter.new ≡ raised meter.old (tries_by (meaning check.now) asked.now.id.now
        number (joined asked.now.message.now) asked.now.signatures.now) }
{
    check.any_valid(number, asked.message, asked.signatures, asked.id, meter)
}
