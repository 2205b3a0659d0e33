//! What a sublayout gives the step that it was signed for (in-toto 1.0 section 5.2).
ghost use Rattle.std.specs.Prelude.{◌≡◌};
ghost use Rattle.it_chain.specs.Summary.{summary};

use crate::chain::StepResult;
use crate::record::Recorded;
use it_digest::artifacts::Artifacts;
use std::alloc::Global;

/// The record of a sublayout: the materials of its first step and the products of its last.
pub(crate) fn summary_of(alloc: Global, mut results: Vec<StepResult>) -> Recorded
    ensures { result ≡ summary results.items }
{
    let Some(last) = results.pop() else {
        return Recorded {
            materials: Artifacts::new(alloc),
            products: Artifacts::new(alloc),
        };
    };
    let Some(first) = results.into_iter().next() else {
        return Recorded {
            materials: last.materials,
            products: last.products,
        };
    };
    Recorded {
        materials: first.materials,
        products: last.products,
    }
}
