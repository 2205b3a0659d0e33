//! Reading policies (this profile's choice).
ghost use Rattle.std.specs.Prelude.{◌≡◌, [], IfOk, IfErr, MatchResult, codes};
ghost use Rattle.it_borrowed.specs.Tree.{as_data};
ghost use Rattle.it_base.specs.Finds.{Finds};
ghost use Rattle.it_base.specs.Parts.{IsPartOr};
ghost use Rattle.it_base.specs.Sequence.{IsList};
ghost use Rattle.it_docs.specs.Policy.{HasOwners, IsExpectation, IsPolicy, PolicyOf};
ghost use Rattle.it_docs.specs.PolicyPart.{PolicyPartOf};
ghost use Rattle.it_docs.specs.inside.PolicyFaults.{IsExpectationsFault, IsPolicyFault};
ghost use Rattle.it_docs.specs.declared.policy_fault.PolicyPart.{PolicyPart as Part};

use crate::policy::{Expectation, Policy};
use crate::policy_fault::{PolicyFault, PolicyPart};
use crate::rule::Rule;
use it_base::list::ListFault;
use it_base::sequence::Sequence;
use it_base::table::Table;
use it_borrowed::document::is_object;
use it_borrowed::document_text::DocumentText;
use it_borrowed::list::{list_or_empty, numbered_list};
use it_borrowed::parts::{FromBorrowed, part};
use it_dsse::key_object::KeyObject;
use json::{Scratch, Value};
use std::alloc::{AllocError, Global};

/// Reads a policy.
///
/// # Errors
///
/// `BadPolicy` with the first part that fails, and `OutOfMemory` where memory was refused.
pub fn read_policy(alloc: Global, bytes: &[u8]) -> Result<Policy, PolicyFault>
    ensures ok { IfOk result (λ policy. PolicyOf bytes.now policy) }
    ensures bad { IfErr result (λ e. (part : Part) → e ≡ PolicyFault.BadPolicy part
        → PolicyPartOf bytes.now part) }
{
    let mut scratch = Scratch::new(alloc);
    let text = DocumentText::read(alloc, bytes, &mut scratch)?;
    policy_in(alloc, &text)
}

/// Reads the policy that a text is, from the document that was read already.
///
/// # Errors
///
/// As those of `read_policy`.
pub fn policy_in(alloc: Global, text: &DocumentText<'_>) -> Result<Policy, PolicyFault>
    ensures ok { IfOk result (λ policy. PolicyOf text.now policy) }
    ensures bad { IfErr result (λ e. (part : Part) → e ≡ PolicyFault.BadPolicy part
        → PolicyPartOf text.now part) }
{
    match text.document() {
        Some(document) => policy_of(alloc, document),
        None => Err(PolicyFault::BadPolicy(PolicyPart::Json)),
    }
}

impl FromBorrowed for Policy {
    ghost is_of = { IsPolicy };

    /// The policy, where no part of it fails.
    fn from_borrowed(alloc: Global, value: &Value<'_>) -> Result<Option<Policy>, AllocError> {
        match policy_of(alloc, value) {
            Ok(policy) => Ok(Some(policy)),
            Err(PolicyFault::BadPolicy(_)) => Ok(None),
            Err(PolicyFault::OutOfMemory) => Err(AllocError),
        }
    }
}

fn policy_of(alloc: Global, document: &Value<'_>) -> Result<Policy, PolicyFault>
    ensures { MatchResult result (IsPolicy (as_data document.now))
        (IsPolicyFault (as_data document.now)) }
{
    if !is_object(document) {
        return Err(PolicyFault::BadPolicy(PolicyPart::Json));
    }
    let Some(owners) = owners_of(alloc, document)? else {
        return Err(PolicyFault::BadPolicy(PolicyPart::Owners));
    };
    let Some(deliver) = list_or_empty::<Rule>(alloc, document, "deliver")? else {
        return Err(PolicyFault::BadPolicy(PolicyPart::Deliver));
    };
    let expectations = expectations_of(alloc, document)?;
    Ok(Policy {
        owners,
        deliver,
        expectations,
    })
}

fn owners_of(alloc: Global, document: &Value<'_>) -> Result<Option<Table<KeyObject>>, AllocError>
    ensures { IfOk result (Finds (HasOwners (as_data document.now))) }
{
    let Some(owners) = part::<Table<KeyObject>>(alloc, document, "owners")? else {
        return Ok(None);
    };
    if owners.is_empty() {
        return Ok(None);
    }
    Ok(Some(owners))
}

fn expectations_of(
    alloc: Global,
    document: &Value<'_>,
) -> Result<Sequence<Expectation>, PolicyFault>
    ensures { MatchResult result
        (IsPartOr (IsList IsExpectation) [] (codes "expectations") (as_data document.now))
        (IsExpectationsFault (as_data document.now)) }
{
    match numbered_list(alloc, document, "expectations") {
        Ok(expectations) => Ok(expectations),
        Err(ListFault::NoList) => Err(PolicyFault::BadPolicy(PolicyPart::Expectations)),
        Err(ListFault::NoItem(n)) => Err(PolicyFault::BadPolicy(PolicyPart::Expectation(n))),
        Err(ListFault::OutOfMemory) => Err(PolicyFault::OutOfMemory),
    }
}
