//! The files that hold what counts for a key id of a step (in-toto 1.0, section 5.2).
ghost use Rattle.std.specs.Bool.{OnTrue};
ghost use Rattle.std.specs.Prelude.{◌≡◌, All, Contains, IfOk, IfSome};
ghost use Rattle.it_rule_notes.specs.CountingFile.{FileCounts, IsLayoutBody, setting_of};
ghost use Rattle.it_rule_notes.specs.inside.CountingFile.{HasBody, IsListed, IsSigned};

use crate::level::Level;
use it_base::optional::push_some;
use it_base::sequence::Sequence;
use it_base::text::Text;
use it_chain::held_file::HeldFile;
use it_chain::signers::Signer;
use it_chain::{body_in, candidate_in, is_claimed, layout_in};
use it_docs::layout::Layout;
use it_docs::step::Step;
use it_dsse::checks::Checks;
use it_dsse::is_signer;
use it_dsse::meter::Meter;
use std::alloc::{AllocError, Global};

/// A file that holds what counts.
#[derive(Drop)]
pub struct CountingFile {
    /// The name of the file in its folder.
    pub name: Text,
    /// The body of its envelope.
    pub payload: Sequence<u8>,
}

/// The files that hold what counts for a key id of a step, in their order.
pub(crate) fn counting_files<C: Checks>(
    alloc: Global,
    level: &Level,
    step: &Step,
    id: &str,
    checks: &C,
) -> Result<Vec<CountingFile>, AllocError>
    ensures { IfOk result (λ files. All
        (FileCounts (setting_of (C.panel checks.now) level.now.moment)
        level.now.layout.now level.now.links.now step.now id.now) files.items) }
{
    let mut found = Vec::new(alloc);
    let Some(signer) = listed(level.layout, step, id) else {
        return Ok(found);
    };
    for file in level.links.files() {
        let counting = counting_file(alloc, file, step.name.as_str(), &signer, checks)?;
        push_some(&mut found, counting)?;
    }
    Ok(found)
}

/// The key id with its key object, if the step lists the id and the layout has the object.
fn listed<'a>(layout: &'a Layout, step: &Step, id: &'a str) -> Option<Signer<'a>>
    ensures { IfSome result (λ signer.
        (signer.id.now ≡ id.now) × IsListed layout.now step.now signer) }
{
    if !lists(step.pubkeys.as_slice(), id) {
        return None;
    }
    let object = layout.keys.get(id)?;
    Some(Signer { id, object })
}

fn lists(ids: &[Text], id: &str) -> bool
    ensures { OnTrue result (Contains ids.now id.now) }
{
    for listed in ids {
        if listed.as_str() == id {
            return true;
        }
    }
    false
}

/// What counts for a step in a file, if the signer's key signed it.
fn counting_file<C: Checks>(
    alloc: Global,
    file: &HeldFile,
    step: &str,
    signer: &Signer,
    checks: &C,
) -> Result<Option<CountingFile>, AllocError>
    ensures { IfOk result (λ found. IfSome found
        (IsSigned (C.panel checks.now) step.now signer.now file.now)) }
{
    if !is_claimed(step, file.name()) {
        return Ok(None);
    }
    let Some(envelope) = candidate_in(file) else {
        return Ok(None);
    };
    let mut meter = Meter { asked: 0 };
    let signed = is_signer(envelope, signer.id, signer.object, checks, &mut meter)?;
    if !signed {
        return Ok(None);
    }
    let payload = envelope.payload.as_slice();
    if !has_body(alloc, step, payload)? {
        return Ok(None);
    }
    let payload = Sequence::from(Vec::from_slice(alloc, payload)?);
    let name = Text::copy(alloc, file.name())?;
    Ok(Some(CountingFile { name, payload }))
}

/// Whether the bytes are a body for a step.
fn has_body(alloc: Global, step: &str, bytes: &[u8]) -> Result<bool, AllocError>
    ensures { IfOk result (λ has. OnTrue has (HasBody step.now bytes.now)) }
{
    Ok(body_in(alloc, step, bytes)?.is_some())
}

/// Whether the bytes are a layout.
pub(crate) fn is_layout(alloc: Global, bytes: &[u8]) -> Result<bool, AllocError>
    ensures { IfOk result (λ is. OnTrue is (IsLayoutBody bytes.now)) }
{
    Ok(layout_in(alloc, bytes)?.is_some())
}
