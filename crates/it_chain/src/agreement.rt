//! Whether all records of a step agree (that they must is this profile's choice).
ghost use Rattle.std.specs.Prelude.{◌≡◌, ◌↔◌, IsTrue, MatchResult};
ghost use Rattle.std.specs.List.{AllByRecursion};
ghost use Rattle.it_chain.specs.inside.Agreement.{IsAgreed, IsDisagreed};

use crate::chain::StepResult;
use crate::fault::refused;
use crate::record::{IdRecord, Recorded};
use crate::refusal::{ChainError, ChainFault};
use it_base::text::Text;
use it_docs::step::Step;
use std::alloc::Global;

/// The record of a step, if all the other records equal the first.
pub(crate) fn agreed(
    alloc: Global,
    step: &Step,
    found: u64,
    first: IdRecord,
    others: &[IdRecord],
) -> Result<StepResult, ChainError>
    ensures { IsAgreed step.now found first others.now result }
{
    check_others(alloc, step, &first, others)?;
    Ok(StepResult {
        name: Text::copy(alloc, step.name.as_str())?,
        materials: first.recorded.materials,
        products: first.recorded.products,
        keys: found,
    })
}

/// Checks that all the other records of a step equal the first.
fn check_others(
    alloc: Global,
    step: &Step,
    first: &IdRecord,
    others: &[IdRecord],
) -> Result<(), ChainError>
    ensures { MatchResult result (λ _. AllByRecursion (λ r. r.recorded ≡ first.now.recorded)
        others.now) (IsDisagreed step.now first.now others.now) }
{
    for other in others {
        if !is_same(&other.recorded, &first.recorded) {
            return Err(refused(
                alloc,
                ChainFault::Disagree {
                    step: Text::copy(alloc, step.name.as_str())?,
                    id: Text::copy(alloc, other.id.as_str())?,
                },
            ));
        }
    }
    Ok(())
}

fn is_same(one: &Recorded, other: &Recorded) -> bool
    ensures { IsTrue result ↔ (one.now ≡ other.now) }
{
    one.materials.same_as(&other.materials) && one.products.same_as(&other.products)
}
