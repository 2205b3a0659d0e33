//! The key ids that may sign for a step.
ghost use Rattle.std.specs.Prelude.{◌≡◌, IfOk, Contains, map, ◌↔◌};
ghost use Rattle.std.specs.Cmp.Lexicographic.{slice_cmp};
ghost use Rattle.std.specs.List.Sorted.{IsStrictlySortedBy};
ghost use Rattle.std.specs.Ordering.{nat_cmp};
ghost use Rattle.it_chain.specs.Answer.{signers as signers_of};
ghost use Rattle.it_chain.specs.Signers.{entry_of};
ghost use Rattle.it_chain.specs.inside.Signers.{AreIds};

use it_base::text::Text;
use it_docs::layout::Layout;
use it_docs::step::Step;
use it_dsse::key_object::KeyObject;
use std::alloc::{AllocError, Global};

/// A key id that a step lists, with the key object that the layout has for it.
#[derive(Drop)]
pub struct Signer<'a> {
    /// The key id.
    pub id: &'a str,
    /// The key object.
    pub object: &'a KeyObject,
}

/// The key ids that a step lists and the layout has, in the order of their bytes.
///
/// # Errors
///
/// `AllocError` where memory was refused.
pub fn signers<'a>(
    alloc: Global,
    layout: &'a Layout,
    step: &'a Step,
) -> Result<Vec<Signer<'a>>, AllocError>
    ensures { IfOk result (λ found. map entry_of found.items ≡ signers_of layout.now step.now) }
{
    let ids = sorted_ids(alloc, step.pubkeys.as_slice())?;
    let mut found = Vec::new(alloc);
    for id in &ids {
        if let Some(object) = layout.keys.get(id) {
            found.push(Signer { id, object })?;
        }
    }
    Ok(found)
}

/// The ids, each once, in the order of their bytes.
fn sorted_ids<'a>(alloc: Global, ids: &'a [Text]) -> Result<Vec<&'a str>, AllocError>
    ensures { IfOk result (λ sorted. AreIds ids.now (map (λ id. id.now) sorted.items)) }
{
    let mut sorted = id_texts(alloc, ids)?;
    sorted.sort_unstable();
    sorted.dedup();
    Ok(sorted)
}

fn id_texts<'a>(alloc: Global, ids: &'a [Text]) -> Result<Vec<&'a str>, AllocError>
    ensures { IfOk result (λ texts. map (λ id. id.now) texts.items ≡ ids.now) }
{
    let mut texts = Vec::with_capacity(alloc, ids.len())?;
    for id in ids {
        texts.push(id.as_str())?;
    }
    Ok(texts)
}
