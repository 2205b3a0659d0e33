//! Who signed an envelope, by checks of any kind.
ghost use Rattle.std.specs.Prelude.{◌≡◌, ◌↔◌, IfOk, IsTrue, OnErr, OnOk, option_map};
ghost use Rattle.std.specs.List.{list_any};
ghost use Rattle.it_base.specs.Finds.{Finds};
ghost use Rattle.it_dsse.specs.Meter.{raised};
ghost use Rattle.it_dsse.specs.Signed.{IsSigner, Signed, is_admitted, message_of, tries, tries_for};
ghost use Rattle.it_dsse.specs.Vouched.{is_vouched};

use crate::checks::Checks;
use crate::envelope::{Envelope, Signature};
use crate::key_object::KeyObject;
use crate::meter::Meter;
use crate::pre_authentication::{LengthDigits, parts_of};
use std::alloc::AllocError;

/// The key that signed the envelope, where the id and the object name a key that is known and some
/// signature is valid for it; `None` otherwise (DSSE v1.0, "Protocol").
///
/// The signatures whose hint is empty or equals `id` are tried in order until one is valid, and the
/// meter rises by the number tried. Where no signature has such a hint, no key is asked for. Takes
/// no memory beside what the checks take.
///
/// # Errors
///
/// Where the checks answer with an error, that error. The meter stays as it was.
pub fn signer_by<C: Checks>(
    envelope: &Envelope,
    id: &str,
    object: &KeyObject,
    checks: &C,
    meter: &mut Meter,
) -> Result<Option<C::Found>, AllocError>
    ensures answer { IfOk result (λ found. Finds
        (Signed (C.panel checks.now) envelope.now id.now object.now)
        (option_map (C.number checks.now) found)) }
    ensures counted { OnOk result (meter.new
        ≡ raised meter.old (tries (C.panel checks.now) envelope.now id.now object.now)) }
    ensures kept { OnErr result (meter.new ≡ meter.old) }
{
    if !any_admitted(envelope.signatures.as_slice(), id) {
        return Ok(None);
    }
    let Some(key) = checks.find(id, object) else {
        return Ok(None);
    };
    let vouched = is_vouched_for(envelope, id, &key, checks, meter)?;
    if vouched { Ok(Some(key)) } else { Ok(None) }
}

/// Whether some signature is admitted for an id.
pub(crate) fn any_admitted(signatures: &[Signature], id: &str) -> bool
    ensures { result ≡ list_any (is_admitted id.now) signatures.now }
{
    signatures.iter().any(|signature| signature.is_admitted(id))
}

/// Whether some signature that is admitted for an id is valid for a key. The signed message is
/// handed over in the parts of its pre-authentication encoding.
fn is_vouched_for<C: Checks>(
    envelope: &Envelope,
    id: &str,
    key: &C::Found,
    checks: &C,
    meter: &mut Meter,
) -> Result<bool, AllocError>
    requires { C.stands checks.now key.now }
    ensures answer { IfOk result (λ valid. valid ≡ is_vouched (C.panel checks.now) id.now
        (C.number checks.now key.now) (message_of envelope.now) envelope.now.signatures) }
    ensures counted { OnOk result (meter.new
        ≡ raised meter.old (tries_for (C.panel checks.now) id.now (C.number checks.now key.now)
        (message_of envelope.now) envelope.now.signatures)) }
    ensures kept { OnErr result (meter.new ≡ meter.old) }
{
    let kind = envelope.payload_type.as_str();
    let body = envelope.payload.as_slice();
    let mut digits = LengthDigits::new();
    let message = parts_of(kind, body, &mut digits);
    let signatures = envelope.signatures.as_slice();
    checks.any_valid(key, &message, signatures, id, meter)
}

/// Whether the key that `id` and `object` name signed the envelope: the key is known, and some
/// signature is valid for it (DSSE v1.0, "Protocol").
///
/// The meter rises by the number of signatures that [`signer_by`] tries. Takes no memory beside
/// what the checks take.
///
/// # Errors
///
/// Where the checks answer with an error, that error. The meter stays as it was.
pub fn is_signer<C: Checks>(
    envelope: &Envelope,
    id: &str,
    object: &KeyObject,
    checks: &C,
    meter: &mut Meter,
) -> Result<bool, AllocError>
    ensures answer { IfOk result (λ signed. IsTrue signed
        ↔ IsSigner (C.panel checks.now) envelope.now object.now id.now) }
    ensures counted { OnOk result (meter.new
        ≡ raised meter.old (tries (C.panel checks.now) envelope.now id.now object.now)) }
    ensures kept { OnErr result (meter.new ≡ meter.old) }
{
    Ok(signer_by(envelope, id, object, checks, meter)?.is_some())
}
