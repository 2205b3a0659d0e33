//! The records of a sublayout's steps.
ghost use Rattle.std.specs.Prelude.{◌≤◌, IfOk};
ghost use Rattle.it_chain.specs.Chain.{Chain};
ghost use Rattle.it_sublayouts.specs.Counted.{LevelStands, setting_of};
ghost use Rattle.it_sublayouts.specs.inside.Below.{AreAnswers};

use crate::level::Level;
use crate::walk::Walk;
use it_base::sequence::Sequence;
use it_chain::answered::AnsweredSublayouts;
use it_chain::chain::StepResult;
use it_chain::refusal::ChainError;
use it_chain::verify_chain_with;
use it_chain::verify_with::LayoutOver;
use it_dsse::checks::Checks;
use std::alloc::AllocError;

/// The records with which a layout holds that is known to hold, by what was answered before for
/// sublayouts over its files and folders.
pub(crate) fn records_of<C: Checks>(
    walk: &Walk<C>,
    level: &Level,
    answered: &mut AnsweredSublayouts,
) -> Result<Sequence<StepResult>, AllocError>
    requires shallow { level.now.depth ≤ 8 }
    requires holds { LevelStands (C.panel walk.now.checks.now) level.now }
    requires answers { AreAnswers (C.panel walk.now.checks.now) level.now answered.old }
    ensures records { IfOk result (Chain (setting_of (C.panel walk.now.checks.now) level.now)
        level.now.depth level.now.layout.now level.now.links.now) }
    ensures answers { IfOk result (λ _.
        AreAnswers (C.panel walk.now.checks.now) level.now answered.new) }
{
    let over = LayoutOver {
        layout: level.layout,
        links: level.links,
        moment: level.moment,
        depth: level.depth,
    };
    match verify_chain_with(walk.alloc, &over, walk.checks, answered) {
        Ok(chain) => Ok(chain.steps),
        Err(ChainError::OutOfMemory) => Err(AllocError),
        Err(ChainError::Refused(_)) => unreachable!(),
    }
}
