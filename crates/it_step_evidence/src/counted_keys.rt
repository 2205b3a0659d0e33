//! The key ids by which something counts for a step (in-toto 1.0 section 5.2).
ghost use Rattle.std.specs.Prelude.{IfOk, map};
ghost use Rattle.it_chain.specs.Answer.{signers as signers_of};
ghost use Rattle.it_chain.specs.Signers.{entry_of};
ghost use Rattle.it_step_evidence.specs.inside.Counting.{AreKeys, IsKeyOrNone};

use crate::listed::names_and_places;
use crate::places::signed_places;
use it_base::optional::push_some;
use it_base::sequence::Sequence;
use it_base::text::Text;
use it_chain::held_file::HeldFile;
use it_chain::signers::{Signer, signers};
use it_docs::layout::Layout;
use it_docs::step::Step;
use it_dsse::checks::Checks;
use it_json_report::evidence::CountedKey;
use std::alloc::{AllocError, Global};

/// The key ids by which something counts for a step, in the order of their bytes, by those of the
/// `files` that hold a body. The files are those that are claimed for the step.
pub(crate) fn counted_keys<C: Checks>(
    alloc: Global,
    checks: &C,
    layout: &Layout,
    step: &Step,
    files: &[&HeldFile],
) -> Result<Vec<CountedKey>, AllocError>
    ensures { IfOk result (λ keys. AreKeys (C.panel checks.now) step.now.name
        (map (λ file. file.now) files.now) (signers_of layout.now step.now) keys.items) }
{
    let signers = signers(alloc, layout, step)?;
    let mut keys = Vec::new(alloc);
    for signer in &signers {
        let key = counted_key(alloc, checks, step.name.as_str(), signer, files)?;
        push_some(&mut keys, key)?;
    }
    Ok(keys)
}

/// A signer's key id with the files by which it counts for a step and the places of its signatures,
/// or `None` where it does not count.
fn counted_key<C: Checks>(
    alloc: Global,
    checks: &C,
    step: &str,
    signer: &Signer,
    files: &[&HeldFile],
) -> Result<Option<CountedKey>, AllocError>
    ensures { IfOk result (IsKeyOrNone (C.panel checks.now) step.now
        (map (λ file. file.now) files.now) (entry_of signer.now)) }
{
    let places = signed_places(alloc, checks, step, signer, files)?;
    if places.is_empty() {
        return Ok(None);
    }
    let (names, signatures) = names_and_places(alloc, &places)?;
    Ok(Some(CountedKey {
        id: Text::copy(alloc, signer.id)?,
        files: Sequence::from(names),
        signatures: Sequence::from(signatures),
    }))
}
