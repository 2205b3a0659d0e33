//! The records of the steps of a layout over a bundle, whether or not its rules hold over it.
ghost use Rattle.std.specs.Prelude.{◌≡◌, ◌≤◌, Contains, IfOk, IfSome};
ghost use Rattle.it_chain.specs.Judged.{AreStepRecords};
ghost use Rattle.it_chain.specs.StepRules.{links_in};
ghost use Rattle.it_rules.specs.Rules.{NamesDiffer};
ghost use Rattle.it_rule_notes.specs.CountingFile.{setting_of};

use crate::level::Level;
use it_chain::chain::{Chain, StepResult};
use it_chain::judge_chain_by;
use it_chain::refusal::ChainError;
use it_dsse::checks::Checks;
use it_dsse::meter::Meter;
use std::alloc::{AllocError, Global};

/// The records of the steps of a level, where sublayouts may be up to `depth` deep.
pub(crate) fn step_records<C: Checks>(
    alloc: Global,
    level: &Level,
    depth: u8,
    checks: &C,
) -> Result<Option<Chain>, AllocError>
    requires { depth ≤ 8 }
    ensures are { IfOk result (λ found. IfSome found (λ chain. AreStepRecords
        (setting_of (C.panel checks.now) level.now.moment) depth
        level.now.layout.now level.now.links.now chain.steps)) }
    ensures differ { IfOk result (λ found. IfSome found (λ chain.
        NamesDiffer (links_in chain.steps))) }
{
    let mut meter = Meter { asked: 0 };
    match judge_chain_by(
        alloc,
        level.layout,
        level.links,
        level.moment,
        depth,
        checks,
        &mut meter,
    ) {
        Ok(judged) => Ok(Some(judged.chain)),
        Err(ChainError::Refused(_)) => Ok(None),
        Err(ChainError::OutOfMemory) => Err(AllocError),
    }
}

/// The record of the step of this name.
pub(crate) fn record_named<'a>(results: &'a [StepResult], name: &str) -> Option<&'a StepResult>
    ensures { IfSome result (λ found.
        Contains results.now found.now × (found.now.name ≡ name.now)) }
{
    for found in results {
        if found.name.as_str() == name {
            return Some(found);
        }
    }
    None
}
