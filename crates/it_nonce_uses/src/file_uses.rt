//! The signatures of a functionary on a file.
ghost use Rattle.std.specs.Prelude.{IfOk};
ghost use Rattle.it_base.specs.Finds.{FindsAs};
ghost use Rattle.it_nonce_uses.specs.FileUses.{FileUses, IsClaimedAs};

use it_chain::held_file::HeldFile;
use it_chain::{body_in, candidate_in, is_claimed};
use it_dsse::checks::Checks;
use it_dsse::envelope::Envelope;
use it_dsse::key_object::KeyObject;
use it_nonces::{NonceUse, Signer, envelope_uses};
use std::alloc::{AllocError, Global};

/// A functionary of a step, with the object of a key.
#[derive(Drop)]
pub(crate) struct Functionary<'a> {
    /// The name of the step.
    pub step: &'a str,
    /// Who signs.
    pub signer: Signer,
    /// The object of the key.
    pub object: &'a KeyObject,
}

/// The signatures of a functionary on the envelope in a file, where the file is claimed for the
/// step and holds a body for it.
///
/// # Errors
///
/// `AllocError` where memory was refused, or where the checks refuse to check more signatures.
pub(crate) fn file_uses<C: Checks>(
    alloc: Global,
    functionary: &Functionary,
    file: &HeldFile,
    checks: &C,
) -> Result<Vec<NonceUse>, AllocError>
    ensures { IfOk result (λ uses. FileUses (C.panel checks.now) functionary.now.step.now
        functionary.now.signer functionary.now.object.now file.now uses.items) }
{
    let Some(envelope) = claimed_envelope(functionary.step, file) else {
        return Ok(Vec::new(alloc));
    };
    let Functionary { signer, object, .. } = functionary;
    let uses = envelope_uses(alloc, envelope, signer, object, checks)?;
    if uses.is_empty() {
        return Ok(uses);
    }
    let body = body_in(alloc, functionary.step, envelope.payload.as_slice())?;
    if body.is_none() {
        return Ok(Vec::new(alloc));
    }
    Ok(uses)
}

/// The envelope in a file that is claimed for a step, where it is of the in-toto type.
fn claimed_envelope<'a>(step: &str, file: &'a HeldFile) -> Option<&'a Envelope>
    ensures { FindsAs (λ envelope. envelope.now) (IsClaimedAs step.now file.now) result }
{
    if !is_claimed(step, file.name()) {
        return None;
    }
    candidate_in(file)
}
