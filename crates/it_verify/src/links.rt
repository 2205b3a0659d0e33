//! What the `MATCH` rules of inspections and of the delivery look at.
ghost use Rattle.std.specs.Prelude.{◌≡◌, ◌++◌, IfOk, map};
ghost use Rattle.it_rules.specs.Item.{links_of, recorded_of};
ghost use Rattle.it_chain.specs.StepRules.{links_in, recorded_in as recorded_by};
ghost use Rattle.it_verify.specs.Inspections.{recorded_in};

use it_chain::chain::StepResult;
use it_docs::link::Link;
use it_rules::item::{Item, Named};
use std::alloc::{AllocError, Global};

/// What the steps and the inspections of a layout recorded, each under its name.
///
/// # Errors
///
/// `AllocError` where memory was refused.
pub fn named_links<'a>(
    alloc: Global,
    steps: &'a [StepResult],
    inspections: &'a [Link],
) -> Result<Vec<Named<'a>>, AllocError>
    ensures links { IfOk result (λ links. links_of links.items
        ≡ links_in steps.now ++ map (λ link. (link.name, recorded_in link)) inspections.now) }
{
    let steps = steps.iter().map(named_step);
    let inspections = inspections.iter().map(named_inspection);
    steps.chain(inspections).collect(alloc)
}

fn named_step(step: &StepResult) -> Named<'_>
    ensures name { result.name.now ≡ step.now.name }
    ensures item { recorded_of result.item ≡ recorded_by step.now }
{
    Named {
        name: step.name.as_str(),
        item: Item {
            materials: &step.materials,
            products: &step.products,
        },
    }
}

fn named_inspection(link: &Link) -> Named<'_>
    ensures name { result.name.now ≡ link.now.name }
    ensures item { recorded_of result.item ≡ recorded_in link.now }
{
    Named {
        name: link.name.as_str(),
        item: Item {
            materials: &link.materials,
            products: &link.products,
        },
    }
}
