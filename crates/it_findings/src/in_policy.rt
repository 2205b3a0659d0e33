//! What is found in a policy.
ghost use Rattle.std.specs.Prelude.{IfOk};
ghost use Rattle.std.specs.Option.{option_copied};
ghost use Rattle.it_findings.specs.PolicyFindings.{PolicyFindings};

use crate::finding::{Finding, RuleList};
use crate::identity_findings::policy_identities;
use crate::in_expectations::expectations_findings;
use crate::in_rules::list_findings;
use crate::shared_keys::shared_keys;
use it_docs::layout::Layout;
use it_docs::policy::Policy;
use std::alloc::{AllocError, Global};

/// All that is found in a policy: on identities among its keys, on keys that are shared, in its
/// rules on what is delivered, and then in each of its expectations in order. `MATCH` takes from
/// what the `layout` has; where there is none, nothing is said of where it takes from.
///
/// # Errors
///
/// `AllocError` where memory was refused.
pub fn policy_findings(
    alloc: Global,
    policy: &Policy,
    layout: Option<&Layout>,
) -> Result<Vec<Finding>, AllocError>
    ensures { IfOk result (λ found.
        PolicyFindings (option_copied layout.entry) policy.now found.items) }
{
    let rules = policy.deliver.as_slice();
    let expectations = policy.expectations.as_slice();
    let mut found = policy_identities(alloc, policy)?;
    let mut shared = shared_keys(alloc, policy)?;
    let mut of_rules = list_findings(alloc, layout, &RuleList::Deliver, rules)?;
    let mut of_expectations = expectations_findings(alloc, expectations)?;
    found.append(&mut shared)?;
    found.append(&mut of_rules)?;
    found.append(&mut of_expectations)?;
    Ok(found)
}
