//! The signatures of functionaries on what is claimed for the steps of a layout.
ghost use Rattle.std.specs.Prelude.{◌≡◌, IfOk};
ghost use Rattle.it_chain.specs.Signers.{entry_of};
ghost use Rattle.it_nonce_uses.specs.FileUses.{functionary};
ghost use Rattle.it_nonce_uses.specs.LayoutUses.{LayoutUses, SignerUses, StepUses};

use crate::file_uses::{Functionary, file_uses};
use it_base::sequence::Sequence;
use it_base::text::Text;
use it_chain::bundle::Bundle;
use it_chain::signers::{Signer as ListedSigner, signers};
use it_docs::layout::Layout;
use it_docs::step::Step;
use it_dsse::checks::Checks;
use it_nonces::{NonceUse, Role, Signer};
use std::alloc::{AllocError, Global};

/// A layout over a bundle.
#[derive(Drop)]
pub(crate) struct LayoutAt<'a> {
    /// The sublayouts down to this layout, the outermost first. Empty for the outermost layout.
    pub at: &'a [(Text, Text)],
    /// The layout.
    pub layout: &'a Layout,
    /// The files that it is checked against.
    pub links: &'a Bundle,
}

/// The signatures on what is claimed for the steps of a layout, in their order.
///
/// # Errors
///
/// `AllocError` where memory was refused, or where the checks refuse to check more signatures.
pub(crate) fn layout_uses<C: Checks>(
    alloc: Global,
    level: &LayoutAt,
    checks: &C,
) -> Result<Vec<NonceUse>, AllocError>
    ensures { IfOk result (λ uses. LayoutUses (C.panel checks.now) level.now.at.now
        level.now.layout.now level.now.links.now uses.items) }
{
    let mut uses = Vec::new(alloc);
    for step in level.layout.steps.as_slice() {
        let mut here = step_uses(alloc, level, step, checks)?;
        uses.append(&mut here)?;
    }
    Ok(uses)
}

/// Those on what is claimed for a step, in the order of the key ids.
fn step_uses<C: Checks>(
    alloc: Global,
    level: &LayoutAt,
    step: &Step,
    checks: &C,
) -> Result<Vec<NonceUse>, AllocError>
    ensures { IfOk result (λ uses. StepUses (C.panel checks.now) level.now.at.now
        level.now.layout.now level.now.links.now step.now uses.items) }
{
    let signers = signers(alloc, level.layout, step)?;
    let mut uses = Vec::new(alloc);
    for signer in signers.as_slice() {
        let mut here = signer_uses(alloc, level, step, signer, checks)?;
        uses.append(&mut here)?;
    }
    Ok(uses)
}

/// Those by the key under an id that a step lists, in the order of the files.
fn signer_uses<C: Checks>(
    alloc: Global,
    level: &LayoutAt,
    step: &Step,
    listed: &ListedSigner,
    checks: &C,
) -> Result<Vec<NonceUse>, AllocError>
    ensures { IfOk result (λ uses. SignerUses (C.panel checks.now) level.now.at.now
        level.now.links.now step.now (entry_of listed.now) uses.items) }
{
    let step = step.name.as_str();
    let functionary = Functionary {
        step,
        signer: as_functionary(alloc, level.at, step, listed.id)?,
        object: listed.object,
    };
    let mut uses = Vec::new(alloc);
    for file in level.links.files() {
        let mut here = file_uses(alloc, &functionary, file, checks)?;
        uses.append(&mut here)?;
    }
    Ok(uses)
}

/// Who signs with the key under an id for a step of the layout at a place.
fn as_functionary(
    alloc: Global,
    at: &[(Text, Text)],
    step: &str,
    id: &str,
) -> Result<Signer, AllocError>
    ensures { IfOk result (λ signer. signer ≡ functionary at.now step.now id.now) }
{
    let role = Role::functionary(alloc, at, step)?;
    let id = Text::copy(alloc, id)?;
    Ok(Signer { role, id })
}
