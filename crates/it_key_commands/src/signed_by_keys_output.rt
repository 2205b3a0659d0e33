//! `itv signed` with public keys: whose keys signed an envelope.
ghost use Rattle.std.specs.Prelude.{◌≡◌, IfErr, IfOk, IsErrOf, map, string_bytes};
ghost use Rattle.std.specs.Io.KnownBytes.{Appends};
ghost use Rattle.it_base.specs.Writing.{AppendsBeginning};
ghost use Rattle.it_dsse.specs.Signed.{message_of};
ghost use Rattle.it_key_commands.specs.SignedByKeysOutput.{IsSignedByKeysOutput, NamesKeySigners};
ghost use Rattle.it_key_commands.specs.inside.SignerNames.{AreSignerNames};
ghost use Rattle.it_outcome.specs.Outcome.{IsOutputFault};

use crate::signer::is_signed_under;
use it_base::table::Table;
use it_borrowed::parts::from_bytes;
use it_commands::{names_output, no_envelope_output};
use it_dsse::envelope::{Envelope, Signature};
use it_dsse::key_object::KeyObject;
use it_dsse::pae;
use it_outcome::output::{Output, put};
use it_outcome::{RunFault, Status};
use std::alloc::{AllocError, Global};
use std::io::Write;

/// Writes the ids under which `keys` has a key that signed the envelope, in the order of their
/// bytes, each on a line of its own, as a report writes a name. A key signed it if a signature
/// whose hint is empty or the key's id is valid for the public key that its object describes (DSSE
/// v1.0, "Protocol").
///
/// The answer is `Good` where some key signed, and `Refused` otherwise. Where the bytes are not an
/// envelope, the report of that refusal is written.
///
/// # Errors
///
/// `Write` where the output could not be written; a beginning of it went out. `OutOfMemory` where
/// memory was refused; nothing went out.
pub fn run_signed_by_keys<W: Write>(
    alloc: Global,
    envelope: &[u8],
    keys: &Table<KeyObject>,
    out: &mut W,
) -> Result<Status, RunFault>
    ensures ok { IfOk result (λ status. (text : _)
        × IsSignedByKeysOutput keys.now envelope.now text status
        × Appends (W.contents out.old) (W.contents out.new) text) }
    ensures write { IsErrOf result RunFault.Write → (text : _) × (status : _)
        × IsSignedByKeysOutput keys.now envelope.now text status
        × AppendsBeginning (W.contents out.old) (W.contents out.new) text }
    ensures memory { IsErrOf result RunFault.OutOfMemory → out.new ≡ out.old }
    ensures faults { IfErr result IsOutputFault }
{
    let output = signed_output(alloc, envelope, keys)?;
    put(out, &output)
}

fn signed_output(
    alloc: Global,
    bytes: &[u8],
    objects: &Table<KeyObject>,
) -> Result<Output, AllocError>
    ensures { IfOk result (λ output. IsSignedByKeysOutput objects.now bytes.now
        output.text.items output.status) }
{
    match from_bytes::<Envelope>(alloc, bytes)? {
        Some(envelope) => signers_output(alloc, &envelope, objects),
        None => no_envelope_output(alloc),
    }
}

fn signers_output(
    alloc: Global,
    envelope: &Envelope,
    objects: &Table<KeyObject>,
) -> Result<Output, AllocError>
    ensures { IfOk result (λ output. NamesKeySigners objects.now envelope.now
        output.text.items output.status) }
{
    let names = signer_names(alloc, envelope, objects)?;
    names_output(alloc, names.as_slice())
}

fn signer_names(
    alloc: Global,
    envelope: &Envelope,
    objects: &Table<KeyObject>,
) -> Result<Vec<String>, AllocError>
    ensures { IfOk result (λ names.
        AreSignerNames objects.now (message_of envelope.now) envelope.now.signatures
        (map string_bytes names.items)) }
{
    let kind = envelope.payload_type.as_str();
    let message = pae(alloc, kind, envelope.payload.as_slice())?;
    let signatures = envelope.signatures.as_slice();
    names_of(alloc, objects, message.as_slice(), signatures)
}

/// The ids of the objects whose keys signed a message.
fn names_of(
    alloc: Global,
    objects: &Table<KeyObject>,
    message: &[u8],
    signatures: &[Signature],
) -> Result<Vec<String>, AllocError>
    ensures { IfOk result (λ names. AreSignerNames objects.now message.now signatures.now
        (map string_bytes names.items)) }
{
    let mut names = Vec::new(alloc);
    for (id, object) in objects.iter() {
        let text = id.as_str();
        if is_signed_under(text, object, message, signatures) {
            names.push(String::from_str(alloc, text)?)?;
        }
    }
    Ok(names)
}
