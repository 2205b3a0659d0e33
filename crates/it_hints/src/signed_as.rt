//! Under which key id a key signed an envelope.
ghost use Rattle.std.specs.Prelude.{IfOk, IfSome, IsTrue};
ghost use Rattle.it_dsse.specs.Vouched.{is_vouched};
ghost use Rattle.it_hints.specs.SignedAs.{IsSignedAs};

use it_dsse::checks::Checks;
use it_dsse::envelope::{Envelope, Signature};
use it_dsse::key_object::KeyObject;
use it_dsse::meter::Meter;
use it_dsse::pae;
use std::alloc::{AllocError, Global};

/// No signature is tried once the meter shows so many.
const MOST_TRIED: u64 = 40;

/// A key object under its id.
#[derive(Clone, Copy)]
pub struct NamedKey<'a> {
    /// The id.
    pub id: &'a str,
    /// The object.
    pub object: &'a KeyObject,
}

/// The first key id that a signature of the envelope names, and for which a signature is tried that
/// is valid for the key (DSSE v1.0, "Protocol").
///
/// Where the key did not sign under its own id, this is the `keyid` of a signature that it made.
/// The answer is `None` where there is no such key id, where the `checks` do not know the key, and
/// as soon as the meter shows 40 signatures or more. It rises by the number that are tried.
///
/// # Errors
///
/// Where the checks answer with an error, that error; `AllocError` also where memory was refused.
pub fn keyid_signed_as<'a, C: Checks>(
    alloc: Global,
    envelope: &'a Envelope,
    key: &NamedKey<'_>,
    checks: &C,
    meter: &mut Meter,
) -> Result<Option<&'a str>, AllocError>
    ensures { IfOk result (λ found. IfSome found (λ keyid. IsSignedAs (C.panel checks.now)
        envelope.now key.now.id.now key.now.object.now keyid.now)) }
{
    let Some(known) = checks.find(key.id, key.object) else {
        return Ok(None);
    };
    let kind = envelope.payload_type.as_str();
    let message = pae(alloc, kind, envelope.payload.as_slice())?;
    let signatures = envelope.signatures.as_slice();
    first_valid(signatures, message.as_slice(), &known, checks, meter)
}

/// The first key id of a signature for which one of the signatures is tried and valid for a key.
fn first_valid<'a, C: Checks>(
    signatures: &'a [Signature],
    message: &[u8],
    key: &C::Found,
    checks: &C,
    meter: &mut Meter,
) -> Result<Option<&'a str>, AllocError>
    requires { C.stands checks.now key.now }
    ensures { IfOk result (λ found. IfSome found (λ keyid. IsTrue (is_vouched
        (C.panel checks.now) keyid.now (C.number checks.now key.now) message.now
        signatures.now))) }
{
    for signature in signatures {
        if meter.asked >= MOST_TRIED {
            return Ok(None);
        }
        let keyid = signature.keyid.as_str();
        let valid = checks.any_valid(key, &[message], signatures, keyid, meter)?;
        if valid {
            return Ok(Some(keyid));
        }
    }
    Ok(None)
}
