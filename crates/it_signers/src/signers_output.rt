//! Who signed the envelope of a file.
ghost use Rattle.std.specs.Prelude.{◌≡◌, IfErr, IfOk, IsErrOf};
ghost use Rattle.std.specs.Io.KnownBytes.{Appends};
ghost use Rattle.it_base.specs.Writing.{AppendsBeginning};
ghost use Rattle.it_outcome.specs.Outcome.{IsOutputFault};
ghost use Rattle.it_signers.specs.SignersOutput.{IsSignersOutput, NamesSigners};

use crate::file_envelope::envelope_in;
use crate::signer_names::signer_names;
use it_base::table::Table;
use it_commands::{names_output, no_envelope_output};
use it_dsse::checks::Checks;
use it_dsse::envelope::Envelope;
use it_dsse::key_object::KeyObject;
use it_outcome::output::{Output, put};
use it_outcome::{RunFault, Status};
use std::alloc::{AllocError, Global};
use std::io::Write;

/// Writes the ids of those `objects` whose keys, as the checks know them, signed the envelope that
/// the bytes are, or that they hold as a Sigstore bundle, in the order of their bytes, each on a
/// line of its own, as a report writes a name. A key signed it if a signature whose hint is empty
/// or the key's id is valid for it (DSSE v1.0, "Protocol").
///
/// The answer is `Good` where some key signed, and `Refused` otherwise. Where the bytes are neither
/// an envelope nor a bundle, the report of the refusal of bytes that are no envelope is written.
///
/// # Errors
///
/// `Write` where the output could not be written; a beginning of it went out. `OutOfMemory` where
/// memory was refused, or the checks answered with an error; nothing went out.
pub fn run_signers<C: Checks, W: Write>(
    alloc: Global,
    bytes: &[u8],
    objects: &Table<KeyObject>,
    checks: &C,
    out: &mut W,
) -> Result<Status, RunFault>
    ensures ok { IfOk result (λ status. (text : _)
        × IsSignersOutput (C.panel checks.now) objects.now bytes.now text status
        × Appends (W.contents out.old) (W.contents out.new) text) }
    ensures write { IsErrOf result RunFault.Write → (text : _) × (status : _)
        × IsSignersOutput (C.panel checks.now) objects.now bytes.now text status
        × AppendsBeginning (W.contents out.old) (W.contents out.new) text }
    ensures memory { IsErrOf result RunFault.OutOfMemory → out.new ≡ out.old }
    ensures faults { IfErr result IsOutputFault }
{
    let output = file_output(alloc, bytes, objects, checks)?;
    put(out, &output)
}

fn file_output<C: Checks>(
    alloc: Global,
    bytes: &[u8],
    objects: &Table<KeyObject>,
    checks: &C,
) -> Result<Output, AllocError>
    ensures { IfOk result (λ output. IsSignersOutput (C.panel checks.now) objects.now bytes.now
        output.text.items output.status) }
{
    match envelope_in(alloc, bytes)? {
        Some(envelope) => signers_output(alloc, &envelope, objects, checks),
        None => no_envelope_output(alloc),
    }
}

fn signers_output<C: Checks>(
    alloc: Global,
    envelope: &Envelope,
    objects: &Table<KeyObject>,
    checks: &C,
) -> Result<Output, AllocError>
    ensures { IfOk result (λ output. NamesSigners (C.panel checks.now) objects.now envelope.now
        output.text.items output.status) }
{
    let names = signer_names(alloc, envelope, objects, checks)?;
    names_output(alloc, names.as_slice())
}
