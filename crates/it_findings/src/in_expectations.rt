//! What is found in the expectations of a policy.
ghost use Rattle.std.specs.Prelude.{◌≡◌, ◌↔◌, ◌<◌, [], All, IfOk, IsTrue};
ghost use Rattle.it_findings.specs.ExpectationFindings.{ExpectationFindings, IsUnreachable};
ghost use Rattle.it_findings.specs.Joined.{Joined, Said};

use crate::finding::Finding;
use crate::one::said;
use crate::unequal_numbers::parameter_findings;
use it_docs::policy::{Builder, Expectation};
use std::alloc::{AllocError, Global};

/// What is found in each expectation, in order.
///
/// # Errors
///
/// `AllocError` where memory was refused.
pub(crate) fn expectations_findings(
    alloc: Global,
    expectations: &[Expectation],
) -> Result<Vec<Finding>, AllocError>
    ensures { IfOk result (λ found. Joined ExpectationFindings expectations.now found.items) }
{
    let mut found = Vec::new(alloc);
    for (place, expectation) in expectations.iter().enumerate() {
        let mut here = expectation_findings(alloc, place, expectation)?;
        found.append(&mut here)?;
    }
    Ok(found)
}

/// What is found in the expectation at a place.
fn expectation_findings(
    alloc: Global,
    place: usize,
    expectation: &Expectation,
) -> Result<Vec<Finding>, AllocError>
    ensures { IfOk result (λ found. ExpectationFindings place expectation.now found.items) }
{
    let mut found = builder_findings(alloc, place, expectation)?;
    let mut of_level = level_findings(alloc, place, expectation)?;
    let mut of_reach = reach_findings(alloc, place, expectation)?;
    let mut of_parameters = parameter_findings(alloc, place, &expectation.parameters)?;
    found.append(&mut of_level)?;
    found.append(&mut of_reach)?;
    found.append(&mut of_parameters)?;
    Ok(found)
}

fn builder_findings(
    alloc: Global,
    place: usize,
    expectation: &Expectation,
) -> Result<Vec<Finding>, AllocError>
    ensures { IfOk result (λ found.
        Said (expectation.now.builders ≡ []) (Finding.NoBuilders place) found.items) }
{
    let builders = expectation.builders.as_slice();
    said(alloc, has_none(builders), Finding::NoBuilders(place))
}

fn has_none(builders: &[Builder]) -> bool
    ensures { IsTrue result ↔ (builders.now ≡ []) }
{
    builders.is_empty()
}

fn level_findings(
    alloc: Global,
    place: usize,
    expectation: &Expectation,
) -> Result<Vec<Finding>, AllocError>
    ensures { IfOk result (λ found.
        Said (expectation.now.level ≡ 0) (Finding.NoLevel place) found.items) }
{
    said(alloc, expectation.level == 0, Finding::NoLevel(place))
}

fn reach_findings(
    alloc: Global,
    place: usize,
    expectation: &Expectation,
) -> Result<Vec<Finding>, AllocError>
    ensures { IfOk result (λ found. Said (IsUnreachable expectation.now)
        (Finding.UnreachableLevel place expectation.now.level) found.items) }
{
    let level = expectation.level;
    let finding = Finding::UnreachableLevel { place, level };
    said(alloc, is_unreachable(expectation), finding)
}

/// Whether the expectation has builders, and none of them reaches its level.
fn is_unreachable(expectation: &Expectation) -> bool
    ensures { IsTrue result ↔ IsUnreachable expectation.now }
{
    let builders = expectation.builders.as_slice();
    !has_none(builders) && all_are_below(builders, expectation.level)
}

fn all_are_below(builders: &[Builder], level: u8) -> bool
    ensures { IsTrue result ↔ All (λ builder. builder.level < level) builders.now }
{
    builders.iter().all(|builder| builder.level < level)
}
