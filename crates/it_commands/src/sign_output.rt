//! `itv sign`: the envelope of a body, signed.
ghost use Rattle.std.specs.Prelude.{◌≡◌, ◌≢◌, ◌↔◌, ◌++◌, ◌⊎◌, IfErr, IfOk, IsErrOf, OnOk, None};
ghost use Rattle.std.specs.Prelude.{codes, find};
ghost use Rattle.std.specs.Io.KnownBytes.{Appends};
ghost use Rattle.it_base.specs.Writing.{AppendsBeginning};
ghost use Rattle.it_dsse.specs.Ring.{has_id};
ghost use Rattle.it_dsse.specs.Signing.{IsSignedUnder};
ghost use Rattle.it_dsse.specs.Written.{written_form};
ghost use Rattle.it_outcome.specs.Outcome.{IsOutputFault};
ghost use Rattle.it_commands.specs.SignOutput.{IsSignOutput};

use it_base::writing::{WriteError, write_all_of};
use it_dsse::envelope::Envelope;
use it_dsse::ring::HmacRing;
use it_dsse::signing::{SignFault, sign};
use it_dsse::written::WriteFault;
use it_outcome::{RunFault, Status};
use std::alloc::Global;
use std::io::Write;

/// Writes the envelope of a body of the type `kind` with one signature, under the secret that the
/// ring has for `id`, and a line feed (DSSE v1.0, "Protocol"). The answer is `Good`.
///
/// # Errors
///
/// `UnknownKey` where the ring has no entry with the id, and `OutOfMemory` where memory was
/// refused; nothing went out. `Write` where the output could not be written; a beginning of it went
/// out.
pub fn run_sign<W: Write>(
    alloc: Global,
    ring: &HmacRing,
    id: &str,
    kind: &str,
    body: &[u8],
    out: &mut W,
) -> Result<Status, RunFault>
    ensures ok { IfOk result (λ status. (status ≡ Status.Good) × (text : _)
        × IsSignOutput ring.now id.now kind.now body.now text
        × Appends (W.contents out.old) (W.contents out.new) text) }
    ensures write { IsErrOf result RunFault.Write → (text : _)
        × IsSignOutput ring.now id.now kind.now body.now text
        × AppendsBeginning (W.contents out.old) (W.contents out.new) text }
    ensures nothing { IfErr result (λ fault. fault ≢ RunFault.Write → out.new ≡ out.old) }
    ensures unknown { IsErrOf result RunFault.UnknownKey ↔ (find (has_id id.now) ring.now ≡ None) }
    ensures faults { IfErr result (λ fault. IsOutputFault fault ⊎ (fault ≡ RunFault.UnknownKey)) }
{
    let envelope = signed(alloc, ring, id, kind, body)?;
    put_line(alloc, &envelope, out)?;
    Ok(Status::Good)
}

fn signed(
    alloc: Global,
    ring: &HmacRing,
    id: &str,
    kind: &str,
    body: &[u8],
) -> Result<Envelope, RunFault>
    ensures ok { IfOk result (IsSignedUnder ring.now id.now kind.now body.now) }
    ensures unknown { IsErrOf result RunFault.UnknownKey ↔ (find (has_id id.now) ring.now ≡ None) }
    ensures faults { IfErr result
        (λ fault. (fault ≡ RunFault.OutOfMemory) ⊎ (fault ≡ RunFault.UnknownKey)) }
{
    match sign(alloc, ring, id, kind, body) {
        Ok(envelope) => Ok(envelope),
        Err(SignFault::UnknownKey) => Err(RunFault::UnknownKey),
        Err(SignFault::OutOfMemory) => Err(RunFault::OutOfMemory),
    }
}

/// Writes the written form of an envelope (DSSE v1.0, "Envelope", its JSON form) and a line feed.
///
/// # Errors
///
/// `OutOfMemory` where memory was refused; nothing went out. `Write` where the output could not be
/// written; a beginning of it went out.
pub fn put_line<W: Write>(alloc: Global, envelope: &Envelope, out: &mut W) -> Result<(), RunFault>
    ensures ok { OnOk result (Appends (W.contents out.old) (W.contents out.new)
        (written_form envelope.now ++ codes "\n")) }
    ensures write { IsErrOf result RunFault.Write
        → AppendsBeginning (W.contents out.old) (W.contents out.new)
        (written_form envelope.now ++ codes "\n") }
    ensures memory { IsErrOf result RunFault.OutOfMemory → out.new ≡ out.old }
    ensures faults { IfErr result IsOutputFault }
{
    match envelope.write(alloc, out) {
        Ok(()) => put_line_feed(out),
        Err(WriteFault::Write) => Err(RunFault::Write),
        Err(WriteFault::OutOfMemory) => Err(RunFault::OutOfMemory),
    }
}

fn put_line_feed<W: Write>(out: &mut W) -> Result<(), RunFault>
    ensures ok { OnOk result (Appends (W.contents out.old) (W.contents out.new) (codes "\n")) }
    ensures err { IfErr result (λ fault. (fault ≡ RunFault.Write)
        × AppendsBeginning (W.contents out.old) (W.contents out.new) (codes "\n")) }
{
    match write_all_of(out, b"\n") {
        Ok(()) => Ok(()),
        Err(WriteError) => Err(RunFault::Write),
    }
}
