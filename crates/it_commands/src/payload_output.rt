//! `itv payload`: what an envelope holds.
ghost use Rattle.std.specs.Prelude.{◌≡◌, IfErr, IfOk, IsErrOf};
ghost use Rattle.std.specs.Io.KnownBytes.{Appends};
ghost use Rattle.it_base.specs.Writing.{AppendsBeginning};
ghost use Rattle.it_outcome.specs.Outcome.{IsOutputFault};
ghost use Rattle.it_commands.specs.PayloadOutput.{IsPayloadOutput};

use crate::no_envelope::no_envelope_output;
use it_borrowed::parts::from_bytes;
use it_dsse::envelope::Envelope;
use it_outcome::output::{Output, put};
use it_outcome::{RunFault, Status};
use std::alloc::{AllocError, Global};
use std::io::Write;

/// Writes the payload of the envelope (DSSE v1.0, "Envelope"): its bytes, decoded, with nothing
/// added. No signature is checked. The answer is `Good`.
///
/// Where the bytes are not an envelope, the report of that refusal is written, and the answer is
/// `Refused`.
///
/// # Errors
///
/// `Write` where the output could not be written; a beginning of it went out. `OutOfMemory` where
/// memory was refused; nothing went out.
pub fn run_payload<W: Write>(
    alloc: Global,
    envelope: &[u8],
    out: &mut W,
) -> Result<Status, RunFault>
    ensures ok { IfOk result (λ status. (text : _) × IsPayloadOutput envelope.now text status
        × Appends (W.contents out.old) (W.contents out.new) text) }
    ensures write { IsErrOf result RunFault.Write → (text : _) × (status : _)
        × IsPayloadOutput envelope.now text status
        × AppendsBeginning (W.contents out.old) (W.contents out.new) text }
    ensures memory { IsErrOf result RunFault.OutOfMemory → out.new ≡ out.old }
    ensures faults { IfErr result IsOutputFault }
{
    let output = payload_output(alloc, envelope)?;
    put(out, &output)
}

fn payload_output(alloc: Global, bytes: &[u8]) -> Result<Output, AllocError>
    ensures { IfOk result
        (λ output. IsPayloadOutput bytes.now output.text.items output.status) }
{
    match from_bytes::<Envelope>(alloc, bytes)? {
        Some(envelope) => Ok(Output {
            text: envelope.payload.into_vec(),
            status: Status::Good,
        }),
        None => no_envelope_output(alloc),
    }
}
