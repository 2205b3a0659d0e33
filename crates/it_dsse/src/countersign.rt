//! Adding a signature to an envelope.
ghost use Rattle.std.specs.Prelude.{◌≡◌, ◌↔◌, IfOk, IsErrOf};
ghost use Rattle.it_dsse.specs.Countersigned.{HasOtherPayload, HasOtherType, IsCountersigned};
ghost use Rattle.it_dsse.specs.Countersigned.{LacksKey};
ghost use Rattle.it_dsse.specs.declared.countersign.CountersignFault.TheVariants as fault;

use crate::envelope::Envelope;
use crate::ring::HmacRing;
use crate::sign::signature_under;
use std::alloc::{AllocError, Global};

/// A signature to be made: the body that it signs, and the key of a ring that makes it.
#[derive(Clone, Copy)]
pub struct NewSignature<'a> {
    /// The secrets, under their ids.
    pub ring: &'a HmacRing,
    /// The id of the key, which becomes the signature's hint.
    pub id: &'a str,
    /// The type of the body, such as `application/vnd.in-toto+json`.
    pub kind: &'a str,
    /// The body itself.
    pub body: &'a [u8],
}

/// Why no signature was added to an envelope.
#[derive(Clone, Copy, Debug, PartialEq, Eq)]
pub enum CountersignFault {
    /// The envelope has another payload type.
    OtherType,
    /// The envelope's payload is not the body.
    OtherPayload,
    /// The ring has no entry with the id.
    UnknownKey,
    /// Memory was refused.
    OutOfMemory,
}

impl From<AllocError> for CountersignFault {
    ghost from_gives = { λ _ e. e ≡ fault.OutOfMemory };

    fn from(_e: AllocError) -> CountersignFault {
        CountersignFault::OutOfMemory
    }
}

/// The envelope with one more signature, after its own (DSSE v1.0, "Protocol", which lets several
/// keys sign one payload): the one that [`sign`](crate::sign::sign) makes of the body that the
/// envelope holds.
///
/// # Errors
///
/// The first of these that holds, in this order: `OtherType` where the envelope's payload type is
/// not `added.kind`, `OtherPayload` where its payload is not `added.body`, and `UnknownKey` where
/// no entry of the ring has the id. `OutOfMemory` where none of them holds and memory was refused.
pub fn countersign(
    alloc: Global,
    added: &NewSignature<'_>,
    envelope: Envelope,
) -> Result<Envelope, CountersignFault>
    ensures ok { let n = added.now in IfOk result
        (IsCountersigned n.ring.now n.id.now n.kind.now n.body.now envelope) }
    ensures other_type { IsErrOf result CountersignFault.OtherType
        ↔ HasOtherType added.now.kind.now envelope }
    ensures other_payload { let n = added.now in IsErrOf result CountersignFault.OtherPayload
        ↔ HasOtherPayload n.kind.now n.body.now envelope }
    ensures unknown { let n = added.now in IsErrOf result CountersignFault.UnknownKey
        ↔ LacksKey n.ring.now n.id.now n.kind.now n.body.now envelope }
{
    if envelope.payload_type.as_str() != added.kind {
        return Err(CountersignFault::OtherType);
    }
    if envelope.payload.as_slice() != added.body {
        return Err(CountersignFault::OtherPayload);
    }
    let Some(entry) = added.ring.entry(added.id) else {
        return Err(CountersignFault::UnknownKey);
    };
    let secret = entry.secret.as_slice();
    let signature = signature_under(alloc, secret, added.id, added.kind, added.body)?;
    Ok(envelope.with_signature(signature)?)
}
