//! Signing a body.
ghost use Rattle.std.specs.Prelude.{◌≡◌, ◌↔◌, IfOk, IsErrOf, None, find};
ghost use Rattle.it_dsse.specs.Ring.{has_id};
ghost use Rattle.it_dsse.specs.Signing.{IsSignedUnder, signature_of, signed_envelope};
ghost use Rattle.it_dsse.specs.declared.sign.SignFault.TheVariants.{OutOfMemory};

use crate::envelope::{Envelope, Signature};
use crate::mac::hmac_sha256_parts;
use crate::pre_authentication::{LengthDigits, parts_of};
use crate::ring::HmacRing;
use it_base::sequence::Sequence;
use it_base::text::Text;
use std::alloc::{AllocError, Global};

/// Why no envelope was signed.
#[derive(Clone, Copy, Debug, PartialEq, Eq)]
pub enum SignFault {
    /// The ring has no entry with the id.
    UnknownKey,
    /// Memory was refused.
    OutOfMemory,
}

impl From<AllocError> for SignFault {
    ghost from_gives = { λ _ e. e ≡ OutOfMemory };

    fn from(_e: AllocError) -> SignFault {
        SignFault::OutOfMemory
    }
}

/// The envelope of a body of type `kind`, such as `application/vnd.in-toto+json`, with one
/// signature (DSSE v1.0, "Protocol"): the HMAC-SHA-256 of the pre-authentication encoding of type
/// and body, under the secret that the ring has for `id`, with `id` as its hint.
///
/// # Errors
///
/// `UnknownKey` where no entry of the ring has the id, and `OutOfMemory` where memory was refused.
pub fn sign(
    alloc: Global,
    ring: &HmacRing,
    id: &str,
    kind: &str,
    body: &[u8],
) -> Result<Envelope, SignFault>
    ensures ok { IfOk result (IsSignedUnder ring.now id.now kind.now body.now) }
    ensures unknown { IsErrOf result SignFault.UnknownKey ↔ (find (has_id id.now) ring.now ≡ None) }
{
    match ring.entry(id) {
        Some(entry) => Ok(envelope_under(alloc, entry.secret.as_slice(), id, kind, body)?),
        None => Err(SignFault::UnknownKey),
    }
}

/// The envelope of a body with a single signature, made under a secret.
fn envelope_under(
    alloc: Global,
    secret: &[u8],
    id: &str,
    kind: &str,
    body: &[u8],
) -> Result<Envelope, AllocError>
    ensures { IfOk result
        (λ envelope. envelope ≡ signed_envelope secret.now id.now kind.now body.now) }
{
    let signature = signature_under(alloc, secret, id, kind, body)?;
    Envelope::of_body(alloc, kind, body, signature)
}

/// The signature of a body under a secret, with the id as its hint.
pub(crate) fn signature_under(
    alloc: Global,
    secret: &[u8],
    id: &str,
    kind: &str,
    body: &[u8],
) -> Result<Signature, AllocError>
    ensures { IfOk result
        (λ signature. signature ≡ signature_of secret.now id.now kind.now body.now) }
{
    let mut digits = LengthDigits::new();
    let code = hmac_sha256_parts(secret, &parts_of(kind, body, &mut digits));
    Ok(Signature {
        keyid: Text::copy(alloc, id)?,
        sig: Sequence::from(Vec::from_slice(alloc, &code)?),
    })
}
