//! The sublayout that a key id signed for a step.
ghost use Rattle.std.specs.Prelude.{IfOk};
ghost use Rattle.it_base.specs.Finds.{FindsAs};
ghost use Rattle.it_docs.specs.Layout.{LayoutOf};
ghost use Rattle.it_sublayouts.specs.Counted.{PayloadCounts};
ghost use Rattle.it_sublayouts.specs.inside.Below.{SignerStands, StepStands};
ghost use Rattle.it_sublayouts.specs.inside.Signed.{HoldsSigned, IsRead, IsSignedIn};

use crate::level::StepAt;
use it_base::sequence::Sequence;
use it_chain::held_file::HeldFile;
use it_chain::signers::Signer;
use it_chain::{candidate_in, is_claimed, layout_in};
use it_docs::layout::Layout;
use it_docs::step::Step;
use it_dsse::checks::Checks;
use it_dsse::is_signer;
use it_dsse::meter::Meter;
use std::alloc::{AllocError, Global};

/// A layout with the payload that it is read from.
#[derive(Drop)]
pub(crate) struct SignedLayout {
    /// The payload of its envelope.
    pub payload: Sequence<u8>,
    /// The layout that the payload is.
    pub layout: Layout,
}

/// The payload of the sublayout that a key id signed for a step, or `None` where there is none.
pub(crate) fn signed_for<'a, C: Checks>(
    at: &StepAt<'_, '_, 'a>,
    signer: &Signer,
    checks: &C,
) -> Result<Option<&'a [u8]>, AllocError>
    requires step { StepStands (C.panel checks.now) at.now }
    requires signer { SignerStands at.now signer.now }
    ensures { IfOk result (FindsAs (λ payload. payload.now) (PayloadCounts (C.panel checks.now)
        at.now.level.now.layout.now at.now.level.now.links.now at.now.step.now
        signer.now.id.now)) }
{
    for file in at.files {
        if let Some(found) = signed_in(at.step, signer, file, checks)? {
            return Ok(Some(found));
        }
    }
    Ok(None)
}

/// The payload that a file holds, where the file is claimed for the step and a key id signed it.
fn signed_in<'a, C: Checks>(
    step: &Step,
    signer: &Signer,
    file: &'a HeldFile,
    checks: &C,
) -> Result<Option<&'a [u8]>, AllocError>
    ensures { IfOk result (FindsAs (λ payload. payload.now) (IsSignedIn (C.panel checks.now)
        step.now signer.now.id.now signer.now.object.now file.now)) }
{
    if !is_claimed(step.name.as_str(), file.name()) {
        return Ok(None);
    }
    held_payload(signer, file, checks)
}

/// The payload that a file holds, where a key id signed it.
fn held_payload<'a, C: Checks>(
    signer: &Signer,
    file: &'a HeldFile,
    checks: &C,
) -> Result<Option<&'a [u8]>, AllocError>
    ensures { IfOk result (FindsAs (λ payload. payload.now) (HoldsSigned (C.panel checks.now)
        signer.now.id.now signer.now.object.now file.now.bytes)) }
{
    let Some(envelope) = candidate_in(file) else {
        return Ok(None);
    };
    let mut meter = Meter { asked: 0 };
    let signed = is_signer(envelope, signer.id, signer.object, checks, &mut meter)?;
    if !signed {
        return Ok(None);
    }
    Ok(Some(envelope.payload.as_slice()))
}

/// The layout that a payload is known to be, with a copy of that payload.
pub(crate) fn read(alloc: Global, payload: &[u8]) -> Result<SignedLayout, AllocError>
    requires { (layout : _) × LayoutOf payload.now layout }
    ensures { IfOk result (IsRead payload.now) }
{
    let Some(layout) = layout_in(alloc, payload)? else {
        unreachable!();
    };
    let payload = Sequence::from(Vec::from_slice(alloc, payload)?);
    Ok(SignedLayout { payload, layout })
}
