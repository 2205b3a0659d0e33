//! `itv sign --onto` with a signature that was made elsewhere: an envelope with one more signature.
ghost use Rattle.std.specs.Prelude.{◌≡◌, ◌≢◌, IfErr, IfOk, IsErrOf};
ghost use Rattle.std.specs.Io.KnownBytes.{Appends};
ghost use Rattle.it_base.specs.Writing.{AppendsBeginning};
ghost use Rattle.it_dsse.specs.Envelope.{EnvelopeOf};
ghost use Rattle.it_key_commands.specs.SignMadeOntoOutput.{HoldsBody, IsSignMadeOntoFault};
ghost use Rattle.it_key_commands.specs.SignMadeOntoOutput.{IsSignMadeOntoOutput};
ghost use Rattle.it_key_commands.specs.inside.BodyFaults.{IsBodyFault};

use crate::fault::KeyFault;
use crate::made_signature::MadeSignature;
use it_base::table::Table;
use it_borrowed::parts::from_bytes;
use it_commands::put_line;
use it_dsse::envelope::Envelope;
use it_dsse::key_object::KeyObject;
use it_outcome::{RunFault, Status};
use std::alloc::Global;
use std::io::Write;

/// Writes the envelope with one more signature, after those that it has, and a line feed (DSSE
/// v1.0, "Protocol"): the signature that was made elsewhere of the body, which must be the
/// envelope's payload. The signature is checked first, by the public key that the object under its
/// id in `keys` describes. The answer is `Good`.
///
/// # Errors
///
/// The first of these that holds, in order, and nothing went out: `Run` of `NoEnvelope` where the
/// bytes are not an envelope, of `OtherType` where its payload type is not `made.kind`, and of
/// `OtherPayload` where its payload is not `made.body`; `UnknownId` where `keys` has no object
/// under the id, `NoPublicKey` where that object describes no public key, and `BadSignature` where
/// the signature is not valid for it. `Run` of `OutOfMemory` where memory was refused; nothing went
/// out. `Run` of `Write` where the output could not be written; a beginning of it went out.
pub fn run_sign_made_onto<W: Write>(
    alloc: Global,
    made: &MadeSignature<'_>,
    keys: &Table<KeyObject>,
    envelope: &[u8],
    out: &mut W,
) -> Result<Status, KeyFault>
    ensures ok { let m = made.now in IfOk result (λ status. (status ≡ Status.Good) × (text : _)
        × IsSignMadeOntoOutput keys.now m.id.now m.kind.now m.body.now m.signature.now
        envelope.now text
        × Appends (W.contents out.old) (W.contents out.new) text) }
    ensures write { let m = made.now in IsErrOf result (KeyFault.Run RunFault.Write) → (text : _)
        × IsSignMadeOntoOutput keys.now m.id.now m.kind.now m.body.now m.signature.now
        envelope.now text
        × AppendsBeginning (W.contents out.old) (W.contents out.new) text }
    ensures nothing { IfErr result
        (λ fault. fault ≢ KeyFault.Run RunFault.Write → out.new ≡ out.old) }
    ensures faults { let m = made.now in IfErr result
        (IsSignMadeOntoFault keys.now m.id.now m.kind.now m.body.now m.signature.now
        envelope.now) }
{
    let before = envelope_with_body(alloc, made, envelope)?;
    made.check(alloc, keys)?;
    let after = before.with_signature(made.in_envelope(alloc)?)?;
    put_line(alloc, &after, out)?;
    Ok(Status::Good)
}

/// The bytes read as an envelope, if it holds the body.
fn envelope_with_body(
    alloc: Global,
    made: &MadeSignature<'_>,
    bytes: &[u8],
) -> Result<Envelope, RunFault>
    ensures ok { IfOk result (λ envelope. EnvelopeOf bytes.now envelope
        × HoldsBody made.now.kind.now made.now.body.now envelope) }
    ensures err { IfErr result (IsBodyFault made.now.kind.now made.now.body.now bytes.now) }
{
    let Some(envelope) = from_bytes::<Envelope>(alloc, bytes)? else {
        return Err(RunFault::NoEnvelope);
    };
    if envelope.payload_type.as_str() != made.kind {
        return Err(RunFault::OtherType);
    }
    if envelope.payload.as_slice() != made.body {
        return Err(RunFault::OtherPayload);
    }
    Ok(envelope)
}
