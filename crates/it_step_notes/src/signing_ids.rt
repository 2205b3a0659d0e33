//! Which key ids of a step, and which other ones, signed an envelope.
ghost use Rattle.std.specs.Prelude.{◌≡◌, ◌↔◌, Any, IfOk, IsTrue};
ghost use Rattle.std.specs.FinMap.{keys};
ghost use Rattle.it_dsse.specs.Signed.{AreThose};
ghost use Rattle.it_step_notes.specs.Signing.{IsNamedSigner, IsSignedUnder};

use crate::step_at::StepAt;
use it_base::text::Text;
use it_docs::layout::Layout;
use it_dsse::checks::Checks;
use it_dsse::envelope::{Envelope, Signature};
use it_dsse::is_signer;
use it_dsse::meter::Meter;
use std::alloc::{AllocError, Global};

/// Those of the step's key ids whose keys in the layout signed the envelope.
pub(crate) fn signing_ids<C: Checks>(
    alloc: Global,
    at: &StepAt,
    envelope: &Envelope,
    checks: &C,
) -> Result<Vec<Text>, AllocError>
    ensures { IfOk result (λ ids. AreThose (IsSignedUnder (C.panel checks.now)
        at.now.layout.now envelope.now) at.now.step.now.pubkeys ids.items) }
{
    let mut ids = Vec::new(alloc);
    for id in at.step.pubkeys.as_slice() {
        let signed = is_signed_under(at.layout, envelope, id.as_str(), checks)?;
        if signed {
            ids.push(Text::copy(alloc, id.as_str())?)?;
        }
    }
    Ok(ids)
}

/// Those of the layout's key ids that the signatures of the envelope name and whose keys signed it,
/// each once, in byte order.
pub(crate) fn other_ids<C: Checks>(
    alloc: Global,
    at: &StepAt,
    envelope: &Envelope,
    checks: &C,
) -> Result<Vec<Text>, AllocError>
    ensures { IfOk result (λ ids. AreThose (IsNamedSigner (C.panel checks.now)
        at.now.layout.now envelope.now) (keys at.now.layout.now.keys) ids.items) }
{
    let mut ids = Vec::new(alloc);
    for (id, _) in at.layout.keys.iter() {
        let signed = is_named_signer(at.layout, envelope, id.as_str(), checks)?;
        if signed {
            ids.push(Text::copy(alloc, id.as_str())?)?;
        }
    }
    Ok(ids)
}

/// Whether the envelope is signed under a key id of the layout that one of its signatures names.
fn is_named_signer<C: Checks>(
    layout: &Layout,
    envelope: &Envelope,
    id: &str,
    checks: &C,
) -> Result<bool, AllocError>
    ensures { IfOk result (λ signed. IsTrue signed
        ↔ IsNamedSigner (C.panel checks.now) layout.now envelope.now id.now) }
{
    if !is_named(envelope.signatures.as_slice(), id) {
        return Ok(false);
    }
    is_signed_under(layout, envelope, id, checks)
}

/// Whether one of the signatures names a key id.
fn is_named(signatures: &[Signature], id: &str) -> bool
    ensures { IsTrue result ↔ Any (λ signature. signature.keyid ≡ id.now) signatures.now }
{
    signatures
        .iter()
        .any(|signature| signature.keyid.as_str() == id)
}

/// Whether the envelope is signed under a key id of the layout.
pub(crate) fn is_signed_under<C: Checks>(
    layout: &Layout,
    envelope: &Envelope,
    id: &str,
    checks: &C,
) -> Result<bool, AllocError>
    ensures { IfOk result (λ signed. IsTrue signed
        ↔ IsSignedUnder (C.panel checks.now) layout.now envelope.now id.now) }
{
    let mut meter = Meter { asked: 0 };
    match layout.keys.get(id) {
        Some(object) => is_signer(envelope, id, object, checks, &mut meter),
        None => Ok(false),
    }
}
