//! The key objects that a refusal depends on and no check knows.
ghost use Rattle.std.specs.Prelude.{All, IfOk};
ghost use Rattle.it_docs.specs.Policy.{PolicyOf};
ghost use Rattle.it_verify.specs.declared.inputs.Inputs.{Inputs};
ghost use Rattle.it_notes.specs.Known.{IsBasis, IsKnown};
ghost use Rattle.it_notes.specs.KeyNotes.{IsOfBuilder, IsOfOwner, IsOfStep, TellsKey};

use crate::fault_level::{level_reached, sublayout_reached};
use crate::known::{Basis, Known};
use crate::provenance::speaking;
use it_base::text::Text;
use it_docs::policy::Policy;
use it_docs::step::step_named;
use it_dsse::checks::Checks;
use it_key_notes::unknown_key::UnknownKey;
use it_key_notes::{unknown_in, unknown_of_builders, unknown_under};
use it_report::refusal::{Fault, Refusal};
use std::alloc::{AllocError, Global};

/// Notes on the key objects that a refusal depends on and no check knows: the owners', those of the
/// step for which too few keys signed, or those of the expected builders.
pub(crate) fn key_notes<C: Checks>(
    alloc: Global,
    basis: &Basis,
    refusal: &Refusal,
    checks: &C,
) -> Result<Vec<UnknownKey>, AllocError>
    requires { (inputs : Inputs) × IsBasis (C.panel checks.now) inputs basis.now }
    ensures { (inputs : Inputs) → IsBasis (C.panel checks.now) inputs basis.now
        → IfOk result (λ notes. All (TellsKey (C.panel checks.now) inputs refusal.now.at
        refusal.now.fault) notes.items) }
{
    match (&refusal.fault, basis) {
        (Fault::OwnerMissing(_), Basis::Begun(begun)) => owner_keys(alloc, &begun.policy, checks),
        (Fault::Threshold { step, .. }, Basis::Known(known)) => {
            step_keys(alloc, known, refusal.at.as_slice(), step.as_str(), checks)
        }
        (Fault::NoProvenance(path, _), Basis::Known(known)) => {
            builder_keys(alloc, &known.policy, path.as_str(), checks)
        }
        _ => Ok(Vec::new(alloc)),
    }
}

/// Those of the policy's owners.
fn owner_keys<C: Checks>(
    alloc: Global,
    policy: &Policy,
    checks: &C,
) -> Result<Vec<UnknownKey>, AllocError>
    ensures { (inputs : Inputs) → PolicyOf inputs.policy policy.now
        → IfOk result (λ notes. All (IsOfOwner (C.panel checks.now) inputs) notes.items) }
{
    let notes = unknown_in(alloc, &policy.owners, checks)?;
    Ok(notes)
}

/// Those under the key ids of the named step, in the layout to which the places lead.
fn step_keys<C: Checks>(
    alloc: Global,
    known: &Known,
    at: &[(Text, Text)],
    name: &str,
    checks: &C,
) -> Result<Vec<UnknownKey>, AllocError>
    requires { IsKnown (C.panel checks.now) known.now.inputs.now known.now }
    ensures { IfOk result (λ notes. All
        (IsOfStep (C.panel checks.now) known.now.inputs.now at.now name.now) notes.items) }
{
    let sublayout = sublayout_reached(alloc, known, at, checks)?;
    let Some(level) = level_reached(known, at, &sublayout) else {
        return Ok(Vec::new(alloc));
    };
    let layout = &level.signed.layout;
    let Some(step) = step_named(layout.steps.as_slice(), name) else {
        return Ok(Vec::new(alloc));
    };
    let notes = unknown_under(alloc, step.pubkeys.as_slice(), &layout.keys, checks)?;
    Ok(notes)
}

/// Those of the builders of the expectation that speaks of the file at a path.
fn builder_keys<C: Checks>(
    alloc: Global,
    policy: &Policy,
    path: &str,
    checks: &C,
) -> Result<Vec<UnknownKey>, AllocError>
    ensures { (inputs : Inputs) → PolicyOf inputs.policy policy.now
        → IfOk result (λ notes. All (IsOfBuilder (C.panel checks.now) inputs path.now)
        notes.items) }
{
    let Some(expectation) = speaking(policy.expectations.as_slice(), path) else {
        return Ok(Vec::new(alloc));
    };
    let notes = unknown_of_builders(alloc, expectation.builders.as_slice(), checks)?;
    Ok(notes)
}
