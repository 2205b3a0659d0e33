//! `itv sign --onto`: an envelope with one more signature.
ghost use Rattle.std.specs.Prelude.{◌≡◌, ◌≢◌, IfErr, IfOk, IsErrOf};
ghost use Rattle.std.specs.Io.KnownBytes.{Appends};
ghost use Rattle.it_base.specs.Writing.{AppendsBeginning};
ghost use Rattle.it_dsse.specs.Countersigned.{IsCountersigned};
ghost use Rattle.it_dsse.specs.Envelope.{EnvelopeOf};
ghost use Rattle.it_commands.specs.SignOntoOutput.{IsSignOntoFault, IsSignOntoOutput};

use crate::sign_output::put_line;
use it_borrowed::parts::from_bytes;
use it_dsse::envelope::Envelope;
use it_dsse::signing::{CountersignFault, NewSignature, countersign};
use it_outcome::{RunFault, Status};
use std::alloc::Global;
use std::io::Write;

/// Writes the envelope with one more signature, after those that it has, and a line feed (DSSE
/// v1.0, "Protocol"): a signature of the body of `added`, which must be the envelope's payload,
/// under the secret that its ring has for the id. The answer is `Good`.
///
/// # Errors
///
/// The first of these that holds, in order, and nothing went out: `NoEnvelope` where the bytes are
/// not an envelope, `OtherType` where its payload type is not `added.kind`, `OtherPayload` where
/// its payload is not `added.body`, and `UnknownKey` where the ring has no entry with the id.
/// `OutOfMemory` where memory was refused; nothing went out. `Write` where the output could not be
/// written; a beginning of it went out.
pub fn run_sign_onto<W: Write>(
    alloc: Global,
    added: &NewSignature<'_>,
    envelope: &[u8],
    out: &mut W,
) -> Result<Status, RunFault>
    ensures ok { let n = added.now in IfOk result (λ status. (status ≡ Status.Good) × (text : _)
        × IsSignOntoOutput n.ring.now n.id.now n.kind.now n.body.now envelope.now text
        × Appends (W.contents out.old) (W.contents out.new) text) }
    ensures write { let n = added.now in IsErrOf result RunFault.Write → (text : _)
        × IsSignOntoOutput n.ring.now n.id.now n.kind.now n.body.now envelope.now text
        × AppendsBeginning (W.contents out.old) (W.contents out.new) text }
    ensures nothing { IfErr result (λ fault. fault ≢ RunFault.Write → out.new ≡ out.old) }
    ensures faults { let n = added.now in IfErr result
        (IsSignOntoFault n.ring.now n.id.now n.kind.now n.body.now envelope.now) }
{
    let after = countersigned(alloc, added, envelope)?;
    put_line(alloc, &after, out)?;
    Ok(Status::Good)
}

/// The bytes read as an envelope, with one more signature.
fn countersigned(
    alloc: Global,
    added: &NewSignature<'_>,
    bytes: &[u8],
) -> Result<Envelope, RunFault>
    ensures ok { let n = added.now in IfOk result (λ after. (before : _)
        × EnvelopeOf bytes.now before
        × IsCountersigned n.ring.now n.id.now n.kind.now n.body.now before after) }
    ensures faults { let n = added.now in IfErr result
        (IsSignOntoFault n.ring.now n.id.now n.kind.now n.body.now bytes.now) }
    ensures unwritten { IfErr result (λ fault. fault ≢ RunFault.Write) }
{
    let Some(before) = from_bytes::<Envelope>(alloc, bytes)? else {
        return Err(RunFault::NoEnvelope);
    };
    match countersign(alloc, added, before) {
        Ok(after) => Ok(after),
        Err(CountersignFault::OtherType) => Err(RunFault::OtherType),
        Err(CountersignFault::OtherPayload) => Err(RunFault::OtherPayload),
        Err(CountersignFault::UnknownKey) => Err(RunFault::UnknownKey),
        Err(CountersignFault::OutOfMemory) => Err(RunFault::OutOfMemory),
    }
}
