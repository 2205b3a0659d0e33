//! Notes on who signed the provenance.
ghost use Rattle.std.specs.Prelude.{◌≡◌, IfOk};
ghost use Rattle.it_verify_command.specs.inside.SignerNotes.{signers_told};

use it_base::writing::write_all_of;
use it_notes::known::{Basis, Told};
use it_report::verdict::Verdict;
use it_signer_notes::notes_on_signers;
use it_vouched::Vouched;
use std::alloc::{AllocError, Global};
use std::io::Write;

/// The number of the refusal for a file that no provenance stands for.
const NO_PROVENANCE: u8 = 61;

/// Writes the notes on identities that signed the provenance and are keys of no builder, where a
/// file has no provenance, as far as memory suffices and they can be written.
pub(crate) fn note_signers<N: Write>(
    alloc: Global,
    vouched: &[Vouched],
    told: &Told,
    notes: &mut N,
) {
    if let Ok(text) = signers_text(alloc, vouched, told) {
        let _ = write_all_of(notes, text.as_slice());
    }
}

/// The lines of these notes.
fn signers_text(alloc: Global, vouched: &[Vouched], told: &Told) -> Result<Vec<u8>, AllocError>
    ensures { IfOk result (λ text. text.items ≡ signers_told vouched.now told.now) }
{
    let Verdict::Refused(refusal) = &told.verdict else {
        return Ok(Vec::new(alloc));
    };
    if refusal.fault.number() != NO_PROVENANCE {
        return Ok(Vec::new(alloc));
    }
    match &told.basis {
        Basis::Known(known) => notes_on_signers(alloc, &known.policy, vouched),
        Basis::Nothing => Ok(Vec::new(alloc)),
        Basis::Begun(_) => Ok(Vec::new(alloc)),
    }
}
