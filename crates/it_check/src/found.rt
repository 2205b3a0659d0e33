//! What is found in the documents.
ghost use Rattle.std.specs.Prelude.{◌≡◌, IfOk, map};
ghost use Rattle.std.specs.Option.{option_copied};
ghost use Rattle.it_check.specs.CheckOutput.{IsFound, LayoutFound, PolicyFound, layout_gaps};
ghost use Rattle.it_check.specs.CheckOutput.{policy_gaps};
ghost use Rattle.it_findings.specs.LayoutFindings.{LayoutFindings};
ghost use Rattle.it_findings.specs.PolicyFindings.{PolicyFindings};

use crate::documents::{LayoutReading, PolicyReading};
use it_docs::layout::Layout;
use it_docs::policy::Policy;
use it_findings::finding::Finding;
use it_findings::member_finding::MemberFinding;
use it_findings::null_key::NullKey;
use it_findings::{layout_findings, policy_findings};
use std::alloc::{AllocError, Global};

/// What is found in a policy that is read, which takes from what the `layout` has.
///
/// # Errors
///
/// `AllocError` where memory was refused.
pub(crate) fn found_in_policy(
    alloc: Global,
    layout: Option<&Layout>,
    policy: &Option<PolicyReading>,
) -> Result<Vec<Finding>, AllocError>
    ensures { IfOk result (λ found.
        PolicyFound (option_copied layout.entry) policy.now found.items) }
{
    match policy {
        Some(
            PolicyReading::Read {
                policy,
                nulls,
                members,
            },
        ) => findings_in_policy(alloc, layout, policy, members.as_slice(), nulls.as_slice()),
        Some(PolicyReading::Bad(_)) => Ok(Vec::new(alloc)),
        None => Ok(Vec::new(alloc)),
    }
}

/// What is found in a layout that is read.
///
/// # Errors
///
/// `AllocError` where memory was refused.
pub(crate) fn found_in_layout(
    alloc: Global,
    layout: &Option<LayoutReading>,
) -> Result<Vec<Finding>, AllocError>
    ensures { IfOk result (λ found. LayoutFound layout.now found.items) }
{
    match layout {
        Some(
            LayoutReading::Read {
                layout,
                nulls,
                places,
                members,
            },
        ) => findings_in_layout(
            alloc,
            layout,
            members.as_slice(),
            nulls.as_slice(),
            places.as_slice(),
        ),
        Some(LayoutReading::Bad(_)) => Ok(Vec::new(alloc)),
        None => Ok(Vec::new(alloc)),
    }
}

/// What is found in the members of a policy, its keys that are null, and then what else is found in
/// it. `MATCH` takes from what the `layout` has, where there is one.
///
/// # Errors
///
/// `AllocError` where memory was refused.
pub fn findings_in_policy(
    alloc: Global,
    layout: Option<&Layout>,
    policy: &Policy,
    members: &[MemberFinding],
    nulls: &[NullKey],
) -> Result<Vec<Finding>, AllocError>
    ensures { IfOk result (λ found. IsFound (policy_gaps members.now nulls.now)
        (PolicyFindings (option_copied layout.entry) policy.now) found.items) }
{
    let mut found = policy_gap_findings(alloc, members, nulls)?;
    let mut others = policy_findings(alloc, policy, layout)?;
    found.append(&mut others)?;
    Ok(found)
}

/// What is found in the members of a layout, its keys that are null, its steps without a threshold,
/// and then what else is found in it.
///
/// # Errors
///
/// `AllocError` where memory was refused.
pub fn findings_in_layout(
    alloc: Global,
    layout: &Layout,
    members: &[MemberFinding],
    nulls: &[NullKey],
    places: &[usize],
) -> Result<Vec<Finding>, AllocError>
    ensures { IfOk result (λ found. IsFound (layout_gaps members.now nulls.now places.now)
        (LayoutFindings layout.now) found.items) }
{
    let mut found = layout_gap_findings(alloc, members, nulls, places)?;
    let mut others = layout_findings(alloc, layout)?;
    found.append(&mut others)?;
    Ok(found)
}

fn policy_gap_findings(
    alloc: Global,
    members: &[MemberFinding],
    nulls: &[NullKey],
) -> Result<Vec<Finding>, AllocError>
    ensures { IfOk result (λ found. found.items ≡ policy_gaps members.now nulls.now) }
{
    let mut found = member_findings(alloc, members)?;
    let mut of_nulls = null_findings(alloc, nulls)?;
    found.append(&mut of_nulls)?;
    Ok(found)
}

fn layout_gap_findings(
    alloc: Global,
    members: &[MemberFinding],
    nulls: &[NullKey],
    places: &[usize],
) -> Result<Vec<Finding>, AllocError>
    ensures { IfOk result (λ found. found.items ≡ layout_gaps members.now nulls.now places.now) }
{
    let mut found = member_findings(alloc, members)?;
    let mut of_nulls = null_findings(alloc, nulls)?;
    let mut open = threshold_findings(alloc, places)?;
    found.append(&mut of_nulls)?;
    found.append(&mut open)?;
    Ok(found)
}

fn member_findings(alloc: Global, members: &[MemberFinding]) -> Result<Vec<Finding>, AllocError>
    ensures { IfOk result (λ found. found.items ≡ map Finding.Member members.now) }
{
    let mut found = Vec::new(alloc);
    for member in members {
        found.push(Finding::Member(member.copy(alloc)?))?;
    }
    Ok(found)
}

fn threshold_findings(alloc: Global, places: &[usize]) -> Result<Vec<Finding>, AllocError>
    ensures { IfOk result (λ found. found.items ≡ map Finding.NoThreshold places.now) }
{
    let mut found = Vec::new(alloc);
    for place in places {
        found.push(Finding::NoThreshold(*place))?;
    }
    Ok(found)
}

fn null_findings(alloc: Global, nulls: &[NullKey]) -> Result<Vec<Finding>, AllocError>
    ensures { IfOk result (λ found. found.items ≡ map Finding.NullKey nulls.now) }
{
    let mut found = Vec::new(alloc);
    for key in nulls {
        found.push(Finding::NullKey(key.copy(alloc)?))?;
    }
    Ok(found)
}
