//! Whether a layout holds for a bundle, by what was answered for sublayouts before.
ghost use Rattle.std.specs.Prelude.{◌≡◌, ◌≤◌, suc, IfOk, IfErr};
ghost use Rattle.it_chain.specs.Answered.{AreWithin};
ghost use Rattle.it_chain.specs.Chain.{Chain as Chain_of};
ghost use Rattle.it_chain.specs.First.{FirstChainFailure};
ghost use Rattle.it_chain.specs.declared.refusal.ChainError.TheVariants.{Refused};
ghost use Rattle.it_chain.specs.declared.refusal.ChainRefusal.{ChainRefusal as Refusal};

use crate::answered::AnsweredSublayouts;
use crate::bundle::Bundle;
use crate::chain::Chain;
use crate::checking::Asked;
use crate::level::{Level, verify_level};
use crate::refusal::ChainError;
use crate::walk::Walk;
use it_docs::layout::Layout;
use it_dsse::checks::Checks;
use it_dsse::meter::Meter;
use std::alloc::Global;

/// A layout over a bundle at a moment.
#[derive(Drop)]
pub struct LayoutOver<'a> {
    /// The layout.
    pub layout: &'a Layout,
    /// The files and folders that it is checked against.
    pub links: &'a Bundle,
    /// The moment, in seconds from 1970-01-01T00:00:00Z.
    pub moment: i64,
    /// How deep sublayouts may be nested.
    pub depth: u8,
}

/// Verifies a layout over a bundle at a moment, as `verify_chain_by` does, and verifies no
/// sublayout again that was answered over its folder.
///
/// The `checks` check the signatures. What was `answered` before must be right for the bundle,
/// these checks and the moment, and what the sublayouts come to is kept there. The answer has a
/// record for each step.
///
/// # Errors
///
/// `Refused` with the first failure where the layout does not hold for the bundle, and
/// `OutOfMemory` where memory was refused, or where the checks refuse to check more signatures.
/// Nothing is known then of what was answered.
pub fn verify_chain_with<C: Checks>(
    alloc: Global,
    over: &LayoutOver,
    checks: &C,
    answered: &mut AnsweredSublayouts,
) -> Result<Chain, ChainError>
    requires shallow { over.now.depth ≤ 8 }
    requires answers { AreWithin (record { panel = C.panel checks.now; moment = over.now.moment })
        (suc over.now.depth) over.now.links.now answered.old }
    ensures ok { IfOk result (λ chain.
        Chain_of (record { panel = C.panel checks.now; moment = over.now.moment })
        over.now.depth over.now.layout.now over.now.links.now chain.steps) }
    ensures bad { IfErr result (λ e. (r : Refusal) → e ≡ Refused r
        → FirstChainFailure (record { panel = C.panel checks.now; moment = over.now.moment })
        over.now.depth over.now.layout.now over.now.links.now r) }
    ensures answers { IfOk result (λ _.
        AreWithin (record { panel = C.panel checks.now; moment = over.now.moment })
        (suc over.now.depth) over.now.links.now answered.new) }
{
    let checking = Asked {
        checks,
        moment: over.moment,
    };
    let level = Level {
        layout: over.layout,
        links: over.links,
        depth: over.depth,
        again: true,
    };
    let walk = Walk {
        alloc,
        checking: &checking,
        level,
    };
    let mut meter = Meter { asked: 0 };
    verify_level(&walk, answered, &mut meter)
}
