//! The records of steps, as artifact rules look at them.
ghost use Rattle.std.specs.Prelude.{◌≡◌, IfOk};
ghost use Rattle.it_rules.specs.Item.{links_of, recorded_of};
ghost use Rattle.it_chain.specs.StepRules.{links_in, recorded_in};

use crate::chain::StepResult;
use it_rules::item::{Item, Named};
use std::alloc::{AllocError, Global};

/// The records under the names of their steps.
///
/// # Errors
///
/// `AllocError` where memory was refused.
pub fn links_to(alloc: Global, results: &[StepResult]) -> Result<Vec<Named<'_>>, AllocError>
    ensures { IfOk result (λ links. links_of links.items ≡ links_in results.now) }
{
    let mut links = Vec::new(alloc);
    for found in results {
        links.push(named_item(found))?;
    }
    Ok(links)
}

/// The artifacts of a record, under the name of its step. Takes no memory.
pub fn named_item(found: &StepResult) -> Named<'_>
    ensures name { result.name.now ≡ found.now.name }
    ensures item { recorded_of result.item ≡ recorded_in found.now }
{
    Named {
        name: found.name.as_str(),
        item: item_of(found),
    }
}

/// The artifacts of a record. Takes no memory.
pub fn item_of(found: &StepResult) -> Item<'_>
    ensures { recorded_of result ≡ recorded_in found.now }
{
    Item {
        materials: &found.materials,
        products: &found.products,
    }
}
