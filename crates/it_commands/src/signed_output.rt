//! `itv signed`: who signed an envelope.
ghost use Rattle.std.specs.Prelude.{◌≡◌, ◌≢◌, ◌↔◌, [], IfErr, IfOk, IsErrOf, map, string_bytes};
ghost use Rattle.std.specs.Io.KnownBytes.{Appends};
ghost use Rattle.it_base.specs.Writing.{AppendsBeginning};
ghost use Rattle.it_dsse.specs.Panel.{panel_of};
ghost use Rattle.it_dsse.specs.Signed.{AreThose, IsSigner};
ghost use Rattle.it_outcome.specs.Outcome.{IsOutputFault};
ghost use Rattle.it_commands.specs.SignedOutput.{
  IsSignedOutput,
  ListsNames,
  NamesSigners,
  names_text,
  ring_object,
};

use crate::no_envelope::no_envelope_output;
use it_base::text::Text;
use it_borrowed::parts::from_bytes;
use it_dsse::boxed::Boxed;
use it_dsse::check::SignatureCheck;
use it_dsse::checks::Checks;
use it_dsse::envelope::Envelope;
use it_dsse::key_object::KeyObject;
use it_dsse::signed_ids_by;
use it_outcome::output::{Output, put};
use it_outcome::{RunFault, Status};
use it_report::name::push_name;
use std::alloc::{AllocError, Global};
use std::io::Write;

/// Writes those of `ids` that signed the envelope, in the order given, each on a line of its own,
/// as a report writes a name. The `panel` is asked with the key object `hmac`, `hmac-sha256` and an
/// empty public part (DSSE v1.0, "Protocol").
///
/// The answer is `Good` where some id signed, and `Refused` otherwise. Where the bytes are not an
/// envelope, the report of that refusal is written.
///
/// # Errors
///
/// `Write` where the output could not be written; a beginning of it went out. `OutOfMemory` where
/// memory was refused; nothing went out.
pub fn run_signed<W: Write>(
    alloc: Global,
    envelope: &[u8],
    ids: &[String],
    panel: &[Box<dyn SignatureCheck>],
    out: &mut W,
) -> Result<Status, RunFault>
    ensures ok { IfOk result (λ status. (text : _)
        × IsSignedOutput (panel_of (map meaning panel.now)) (map string_bytes ids.now)
        envelope.now text status
        × Appends (W.contents out.old) (W.contents out.new) text) }
    ensures write { IsErrOf result RunFault.Write → (text : _) × (status : _)
        × IsSignedOutput (panel_of (map meaning panel.now)) (map string_bytes ids.now)
        envelope.now text status
        × AppendsBeginning (W.contents out.old) (W.contents out.new) text }
    ensures memory { IsErrOf result RunFault.OutOfMemory → out.new ≡ out.old }
    ensures faults { IfErr result IsOutputFault }
{
    run_signed_by(alloc, envelope, ids, &Boxed { panel }, out)
}

/// Writes those of `ids` that signed the envelope, in the order given, each on a line of its own,
/// as a report writes a name. The `checks` are asked with the key object `hmac`, `hmac-sha256` and
/// an empty public part (DSSE v1.0, "Protocol").
///
/// The answer is `Good` where some id signed, and `Refused` otherwise. Where the bytes are not an
/// envelope, the report of that refusal is written.
///
/// # Errors
///
/// `Write` where the output could not be written; a beginning of it went out. `OutOfMemory` where
/// memory was refused; nothing went out.
pub fn run_signed_by<C: Checks, W: Write>(
    alloc: Global,
    envelope: &[u8],
    ids: &[String],
    checks: &C,
    out: &mut W,
) -> Result<Status, RunFault>
    ensures ok { IfOk result (λ status. (text : _)
        × IsSignedOutput (C.panel checks.now) (map string_bytes ids.now)
        envelope.now text status
        × Appends (W.contents out.old) (W.contents out.new) text) }
    ensures write { IsErrOf result RunFault.Write → (text : _) × (status : _)
        × IsSignedOutput (C.panel checks.now) (map string_bytes ids.now)
        envelope.now text status
        × AppendsBeginning (W.contents out.old) (W.contents out.new) text }
    ensures memory { IsErrOf result RunFault.OutOfMemory → out.new ≡ out.old }
    ensures faults { IfErr result IsOutputFault }
{
    let output = signed_output(alloc, envelope, ids, checks)?;
    put(out, &output)
}

fn signed_output<C: Checks>(
    alloc: Global,
    bytes: &[u8],
    ids: &[String],
    checks: &C,
) -> Result<Output, AllocError>
    ensures { IfOk result (λ output. IsSignedOutput (C.panel checks.now) (map
        string_bytes ids.now)
        bytes.now output.text.items output.status) }
{
    match from_bytes::<Envelope>(alloc, bytes)? {
        Some(envelope) => signers_output(alloc, &envelope, ids, checks),
        None => no_envelope_output(alloc),
    }
}

fn signers_output<C: Checks>(
    alloc: Global,
    envelope: &Envelope,
    ids: &[String],
    checks: &C,
) -> Result<Output, AllocError>
    ensures { IfOk result (λ output. NamesSigners (C.panel checks.now) (map
        string_bytes ids.now)
        envelope.now output.text.items output.status) }
{
    let signers = signers(alloc, envelope, ids, checks)?;
    names_output(alloc, signers.as_slice())
}

fn signers<C: Checks>(
    alloc: Global,
    envelope: &Envelope,
    ids: &[String],
    checks: &C,
) -> Result<Vec<String>, AllocError>
    ensures { IfOk result (λ signers. AreThose
        (IsSigner (C.panel checks.now) envelope.now ring_object)
        (map string_bytes ids.now) (map string_bytes signers.items)) }
{
    let object = ring_object(alloc)?;
    signed_ids_by(alloc, envelope, ids, &object, checks)
}

fn ring_object(alloc: Global) -> Result<KeyObject, AllocError>
    ensures { IfOk result (λ object. object ≡ ring_object) }
{
    Ok(KeyObject {
        keytype: Text::from(String::from_str(alloc, "hmac")?),
        scheme: Text::from(String::from_str(alloc, "hmac-sha256")?),
        public: Text::from(String::new(alloc)),
        identity: Text::from(String::new(alloc)),
        issuer: Text::from(String::new(alloc)),
    })
}

/// Names as an output: each as a report writes a name, on a line of its own, and the status `Good`
/// where there is one, `Refused` otherwise.
///
/// # Errors
///
/// `AllocError` where memory was refused.
pub fn names_output(alloc: Global, names: &[String]) -> Result<Output, AllocError>
    ensures { IfOk result (λ output. ListsNames (map string_bytes names.now)
        output.text.items output.status) }
{
    Ok(Output {
        text: names_text(alloc, names)?,
        status: status_of(names),
    })
}

fn status_of(names: &[String]) -> Status
    ensures { (result ≡ Status.Good) ↔ (map string_bytes names.now ≢ []) }
{
    if names.is_empty() {
        Status::Refused
    } else {
        Status::Good
    }
}

fn names_text(alloc: Global, names: &[String]) -> Result<Vec<u8>, AllocError>
    ensures { IfOk result (λ text. text.items ≡ names_text (map string_bytes names.now)) }
{
    let mut text = Vec::new(alloc);
    for name in names {
        push_name(&mut text, name.as_bytes())?;
        text.push(b'\n')?;
    }
    Ok(text)
}
