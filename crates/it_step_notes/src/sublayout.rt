//! From a layout down to a sublayout (in-toto 1.0 sections 4.4 and 5.2).
ghost use Rattle.std.specs.Prelude.{◌≡◌, ◌↔◌, Contains, IfOk, IfSome, IsTrue};
ghost use Rattle.std.specs.Prelude.{option_map};
ghost use Rattle.it_base.specs.Finds.{Finds, FindsAs};
ghost use Rattle.it_chain.specs.Contents.{folder_at};
ghost use Rattle.it_chain.specs.Sublayouts.{folder_name as folder_name_of};
ghost use Rattle.it_step_notes.specs.Sublayout.{HoldsLayout, IsSublayoutIn, IsSublayoutOf};
ghost use Rattle.it_step_notes.specs.Sublayout.{LeadsDown};

use crate::signed_layout::SignedLayout;
use crate::signing_ids::is_signed_under;
use crate::step_at::StepAt;
use it_base::text::Text;
use it_chain::bundle::Bundle;
use it_chain::held_file::HeldFile;
use it_chain::{folder_name, is_claimed};
use it_docs::layout::Layout;
use it_docs::step::step_named;
use it_dsse::checks::Checks;
use it_dsse::payload_type::IN_TOTO;
use std::alloc::{AllocError, Global};

/// A sublayout, and the folder that its files are in.
#[derive(Drop)]
pub struct Sublayout<'a> {
    /// The sublayout in its envelope.
    pub signed: SignedLayout,
    /// The folder of its files, or `None` where it is missing, which counts as an empty one.
    pub folder: Option<&'a Bundle>,
}

/// A sublayout that a key id signed for a step of a layout, in a file of the bundle that is claimed
/// for the step, and the folder that its files are in: one place down, as a refusal names it
/// (in-toto 1.0 sections 4.4 and 5.2). `place` is the name of the step and the key id. `None` where
/// there is no such sublayout. Signatures are checked by the `checks`.
///
/// # Errors
///
/// `AllocError` where memory was refused.
pub fn sublayout_at<'a, C: Checks>(
    alloc: Global,
    layout: &Layout,
    bundle: &'a Bundle,
    place: &(Text, Text),
    checks: &C,
) -> Result<Option<Sublayout<'a>>, AllocError>
    ensures leads { IfOk result (FindsAs (λ below. below.signed)
        (LeadsDown (C.panel checks.now) layout.now bundle.now place.now.0
        place.now.1)) }
    ensures folder { IfOk result (λ found. IfSome found (λ below.
        option_map (λ folder. folder.now) below.folder
        ≡ folder_at (folder_name_of place.now.0 place.now.1) bundle.now)) }
{
    let (name, id) = (place.0.as_str(), place.1.as_str());
    let Some(step) = step_named(layout.steps.as_slice(), name) else {
        return Ok(None);
    };
    let at = StepAt {
        layout,
        bundle,
        step,
    };
    let Some(signed) = sublayout_of(alloc, &at, id, checks)? else {
        return Ok(None);
    };
    let folder = folder_name(alloc, name, id)?;
    Ok(Some(Sublayout {
        signed,
        folder: bundle.dir(folder.as_str()),
    }))
}

/// The sublayout that a key id signed for a step.
fn sublayout_of<C: Checks>(
    alloc: Global,
    at: &StepAt,
    id: &str,
    checks: &C,
) -> Result<Option<SignedLayout>, AllocError>
    ensures { IfOk result (Finds (IsSublayoutOf (C.panel checks.now)
        at.now.layout.now at.now.bundle.now at.now.step.now id.now)) }
{
    if !is_listed(at.step.pubkeys.as_slice(), id) {
        return Ok(None);
    }
    for file in at.bundle.files() {
        if let Some(found) = sublayout_in(alloc, at, id, file, checks)? {
            return Ok(Some(found));
        }
    }
    Ok(None)
}

fn is_listed(ids: &[Text], id: &str) -> bool
    ensures { IsTrue result ↔ Contains ids.now id.now }
{
    ids.iter().any(|listed| listed.as_str() == id)
}

/// The sublayout that a file holds, where a key id signed it for the step.
fn sublayout_in<C: Checks>(
    alloc: Global,
    at: &StepAt,
    id: &str,
    file: &HeldFile,
    checks: &C,
) -> Result<Option<SignedLayout>, AllocError>
    ensures { IfOk result (Finds (IsSublayoutIn (C.panel checks.now)
        at.now.layout.now at.now.step.now id.now file.now)) }
{
    if !is_claimed(at.step.name.as_str(), file.name()) {
        return Ok(None);
    }
    signed_layout(alloc, at.layout, id, file, checks)
}

/// The layout in the payload of an envelope that is signed under a key id.
fn signed_layout<C: Checks>(
    alloc: Global,
    layout: &Layout,
    id: &str,
    file: &HeldFile,
    checks: &C,
) -> Result<Option<SignedLayout>, AllocError>
    ensures { IfOk result (Finds (HoldsLayout (C.panel checks.now)
        layout.now id.now file.now.bytes)) }
{
    let Some(envelope) = file.envelope() else {
        return Ok(None);
    };
    if envelope.payload_type.as_str() != IN_TOTO {
        return Ok(None);
    }
    let signed = is_signed_under(layout, envelope, id, checks)?;
    if !signed {
        return Ok(None);
    }
    SignedLayout::in_payload(alloc, envelope.payload.as_slice())
}
