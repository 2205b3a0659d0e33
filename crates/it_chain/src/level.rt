//! The walk over a layout's steps (in-toto 1.0 section 5.2, verifying the final product).
ghost use Rattle.std.specs.Prelude.{◌≤◌, IfOk};
ghost use Rattle.it_chain.specs.Contents.{files_of};
ghost use Rattle.it_chain.specs.inside.Answered.{AreAnswers};
ghost use Rattle.it_chain.specs.inside.ClaimedFiles.{ClaimsIn};
ghost use Rattle.it_chain.specs.Judged.{settles};
ghost use Rattle.it_chain.specs.inside.Scope.{HoldsSteps, LevelAnswers, LevelAsks, LevelTakes};
ghost use Rattle.it_chain.specs.inside.Scope.{scope_of};
ghost use Rattle.it_chain.specs.inside.Scope.{StepAnswers, StepAsks, StepTakes};
ghost use Rattle.it_chain.specs.inside.Scope.{StepsAnswer, StepsAsk};

use crate::answered::AnsweredSublayouts;
use crate::bundle::Bundle;
use crate::candidate::Candidates;
use crate::chain::{Chain, StepResult};
use crate::checking::Checking;
use crate::claimed_files::Claims;
use crate::expiry::is_expired;
use crate::fault::refused;
use crate::id_records::{StepAt, verify_ids};
use crate::judged::JudgedChain;
use crate::refusal::{ChainError, ChainFault};
use crate::signers::signers;
use crate::step_rules::first_failed;
use crate::threshold::judged;
use crate::walk::Walk;
use it_base::sequence::Sequence;
use it_docs::layout::Layout;
use it_docs::step::Step;
use it_dsse::meter::Meter;

/// A layout over a bundle.
#[derive(Drop)]
pub(crate) struct Level<'a> {
    /// The layout.
    pub layout: &'a Layout,
    /// The files and folders that it is checked against.
    pub links: &'a Bundle,
    /// How deep sublayouts may be nested.
    pub depth: u8,
    /// Whether another layout may be verified over the same bundle.
    pub again: bool,
}

/// The records with which a layout holds for a bundle.
#[cycle(level)]
pub(crate) fn verify_level<C: Checking>(
    walk: &Walk<C>,
    answered: &mut AnsweredSublayouts,
    meter: &mut Meter,
) -> Result<Chain, ChainError>
    requires shallow { walk.now.level.depth ≤ 8 }
    requires answers { AreAnswers (scope_of C.setting walk.now) answered.old }
    ensures answer { LevelAnswers (scope_of C.setting walk.now) result }
    ensures asked { LevelAsks (scope_of C.setting walk.now) meter.old meter.new result }
    ensures fewest { IfOk result (λ _. LevelTakes (scope_of C.setting walk.now)
        meter.old meter.new) }
    ensures answers { IfOk result (λ _. AreAnswers (scope_of C.setting walk.now) answered.new) }
{
    judge_level(walk, answered, meter)?.settled()
}

/// The records with which a layout's steps hold for a bundle, and whether its rules hold over them.
#[cycle(level)]
pub(crate) fn judge_level<C: Checking>(
    walk: &Walk<C>,
    answered: &mut AnsweredSublayouts,
    meter: &mut Meter,
) -> Result<JudgedChain, ChainError>
    requires shallow { walk.now.level.depth ≤ 8 }
    requires answers { AreAnswers (scope_of C.setting walk.now) answered.old }
    ensures answer { LevelAnswers (scope_of C.setting walk.now) (settles result) }
    ensures records { IfOk result (HoldsSteps (scope_of C.setting walk.now)) }
    ensures asked { LevelAsks (scope_of C.setting walk.now) meter.old meter.new (settles result) }
    ensures fewest { IfOk result (λ _. LevelTakes (scope_of C.setting walk.now)
        meter.old meter.new) }
    ensures answers { IfOk result (λ _. AreAnswers (scope_of C.setting walk.now) answered.new) }
{
    let alloc = walk.alloc;
    if is_expired(walk.checking, walk.level.layout) {
        return Err(refused(alloc, ChainFault::Expired));
    }
    let claims = Claims::of(alloc, walk.level.links.files())?;
    let steps = verify_steps(walk, &claims, answered, meter)?;
    let failed = first_failed(alloc, walk.level.layout.steps.as_slice(), steps.as_slice())?;
    let steps = Sequence::from(steps);
    Ok(JudgedChain {
        chain: Chain { steps },
        failed,
    })
}

/// The records of a layout's steps.
#[cycle(level)]
fn verify_steps<C: Checking>(
    walk: &Walk<C>,
    claims: &Claims,
    answered: &mut AnsweredSublayouts,
    meter: &mut Meter,
) -> Result<Vec<StepResult>, ChainError>
    requires shallow { walk.now.level.depth ≤ 8 }
    requires claims { ClaimsIn (files_of walk.now.level.links.now) claims.now }
    requires answers { AreAnswers (scope_of C.setting walk.now) answered.old }
    ensures answer { StepsAnswer (scope_of C.setting walk.now) result }
    ensures asked { StepsAsk (scope_of C.setting walk.now) meter.old meter.new result }
    ensures fewest { IfOk result (λ _. LevelTakes (scope_of C.setting walk.now)
        meter.old meter.new) }
    ensures answers { IfOk result (λ _. AreAnswers (scope_of C.setting walk.now) answered.new) }
{
    let mut results = Vec::new(walk.alloc);
    for step in walk.level.layout.steps.as_slice() {
        results.push(verify_step(walk, claims, step, answered, meter)?)?;
    }
    Ok(results)
}

/// The record of a step.
#[cycle(level)]
fn verify_step<'a, C: Checking>(
    walk: &Walk<'a, C>,
    claims: &Claims,
    step: &'a Step,
    answered: &mut AnsweredSublayouts,
    meter: &mut Meter,
) -> Result<StepResult, ChainError>
    requires shallow { walk.now.level.depth ≤ 8 }
    requires claims { ClaimsIn (files_of walk.now.level.links.now) claims.now }
    requires answers { AreAnswers (scope_of C.setting walk.now) answered.old }
    ensures answer { StepAnswers (scope_of C.setting walk.now) step.now result }
    ensures asked { StepAsks (scope_of C.setting walk.now) step.now meter.old meter.new result }
    ensures fewest { IfOk result (λ _. StepTakes (scope_of C.setting walk.now) step.now
        meter.old meter.new) }
    ensures answers { IfOk result (λ _. AreAnswers (scope_of C.setting walk.now) answered.new) }
{
    let alloc = walk.alloc;
    let name = step.name.as_str();
    let found = Candidates::at(alloc, walk.level.links.files(), claims.places(name))?;
    let signers = signers(alloc, walk.level.layout, step)?;
    let signers = signers.as_slice();
    let again = walk.level.again || signers.len() > 1;
    let at = StepAt { step, found, again };
    let records = verify_ids(walk, &at, signers, answered, meter)?;
    judged(alloc, step, records)
}
