//! `itv sign` with a signature that was made elsewhere: the envelope of a body.
ghost use Rattle.std.specs.Prelude.{◌≡◌, ◌≢◌, IfErr, IfOk, IsErrOf};
ghost use Rattle.std.specs.Io.KnownBytes.{Appends};
ghost use Rattle.it_base.specs.Writing.{AppendsBeginning};
ghost use Rattle.it_key_commands.specs.SignMadeOutput.{IsSignMadeFault, IsSignMadeOutput};
ghost use Rattle.it_key_commands.specs.SignMadeOutput.{made_envelope};

use crate::fault::KeyFault;
use crate::made_signature::MadeSignature;
use it_base::table::Table;
use it_commands::put_line;
use it_dsse::envelope::Envelope;
use it_dsse::key_object::KeyObject;
use it_outcome::{RunFault, Status};
use std::alloc::{AllocError, Global};
use std::io::Write;

/// Writes the envelope of a body with one signature, made of it elsewhere, and a line feed (DSSE
/// v1.0, "Protocol"). The signature is checked first, by the public key that the object under its
/// id in `keys` describes. The answer is `Good`.
///
/// # Errors
///
/// The first of these that holds, in order, and nothing went out: `UnknownId` where `keys` has no
/// object under the id, `NoPublicKey` where that object describes no public key, and `BadSignature`
/// where the signature is not valid for it. `Run` of `OutOfMemory` where memory was refused;
/// nothing went out. `Run` of `Write` where the output could not be written; a beginning of it went
/// out.
pub fn run_sign_made<W: Write>(
    alloc: Global,
    made: &MadeSignature<'_>,
    keys: &Table<KeyObject>,
    out: &mut W,
) -> Result<Status, KeyFault>
    ensures ok { let m = made.now in IfOk result (λ status. (status ≡ Status.Good) × (text : _)
        × IsSignMadeOutput keys.now m.id.now m.kind.now m.body.now m.signature.now text
        × Appends (W.contents out.old) (W.contents out.new) text) }
    ensures write { let m = made.now in IsErrOf result (KeyFault.Run RunFault.Write) → (text : _)
        × IsSignMadeOutput keys.now m.id.now m.kind.now m.body.now m.signature.now text
        × AppendsBeginning (W.contents out.old) (W.contents out.new) text }
    ensures nothing { IfErr result
        (λ fault. fault ≢ KeyFault.Run RunFault.Write → out.new ≡ out.old) }
    ensures faults { let m = made.now in IfErr result
        (IsSignMadeFault keys.now m.id.now m.kind.now m.body.now m.signature.now) }
{
    made.check(alloc, keys)?;
    let envelope = envelope_of(alloc, made)?;
    put_line(alloc, &envelope, out)?;
    Ok(Status::Good)
}

fn envelope_of(alloc: Global, made: &MadeSignature<'_>) -> Result<Envelope, AllocError>
    ensures { let m = made.now in IfOk result
        (λ envelope. envelope ≡ made_envelope m.id.now m.kind.now m.body.now m.signature.now) }
{
    let signature = made.in_envelope(alloc)?;
    Envelope::of_body(alloc, made.kind, made.body, signature)
}
