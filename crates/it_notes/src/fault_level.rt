//! The layout that a refusal is about.
ghost use Rattle.std.specs.Prelude.{IfOk, IfSome};
ghost use Rattle.it_dsse.specs.Panel.{Panel};
ghost use Rattle.it_notes.specs.Known.{IsKnown};
ghost use Rattle.it_notes.specs.Level.{IsBelow, IsReached, LeadsTo};

use crate::known::Known;
use it_base::sequence::Sequence;
use it_base::text::Text;
use it_chain::bundle::Bundle;
use it_chain::chain::StepResult;
use it_dsse::checks::Checks;
use it_step_notes::signed_layout::SignedLayout;
use it_step_notes::sublayout::sublayout_at;
use std::alloc::{AllocError, Global};

/// A layout over its links, at the moment of the verification.
#[derive(Drop)]
pub struct FaultLevel<'a> {
    /// The layout in its envelope.
    pub signed: SignedLayout,
    /// The files that it is checked against: for a sublayout those of its folder.
    pub links: &'a Bundle,
    /// The moment, in seconds from 1970-01-01T00:00:00Z.
    pub moment: i64,
    /// The records of its steps, in its order, where they are at hand.
    pub steps: Option<Sequence<StepResult>>,
}

/// The sublayout to which the places lead down from the outermost layout, or `None` where they lead
/// to none, the folder of one is missing, or there are no places.
pub(crate) fn sublayout_reached<'a, C: Checks>(
    alloc: Global,
    known: &Known<'a>,
    at: &[(Text, Text)],
    checks: &C,
) -> Result<Option<FaultLevel<'a>>, AllocError>
    requires { IsKnown (C.panel checks.now) known.now.inputs.now known.now }
    ensures { IfOk result (λ found. IfSome found
        (IsReached (C.panel checks.now) known.now.inputs.now at.now)) }
{
    let Some((place, rest)) = at.split_first() else {
        return Ok(None);
    };
    let Some(next) = next_level(alloc, &known.top, place, checks)? else {
        return Ok(None);
    };
    level_below(alloc, next, rest, checks)
}

/// The layout to which the places lead: the outermost one where there are none, and else the
/// sublayout that was reached.
pub(crate) fn level_reached<'k, 'a>(
    known: &'k Known<'a>,
    at: &[(Text, Text)],
    sublayout: &'k Option<FaultLevel<'a>>,
) -> Option<&'k FaultLevel<'a>>
    ensures { (panel : Panel) → IsKnown panel known.now.inputs.now known.now
        → IfSome sublayout.now (IsReached panel known.now.inputs.now at.now)
        → IfSome result (λ level. IsReached panel known.now.inputs.now at.now level.now) }
{
    if at.is_empty() {
        return Some(&known.top);
    }
    sublayout.as_ref()
}

/// The layout that the places lead down to.
fn level_below<'a, C: Checks>(
    alloc: Global,
    level: FaultLevel<'a>,
    at: &[(Text, Text)],
    checks: &C,
) -> Result<Option<FaultLevel<'a>>, AllocError>
    ensures { IfOk result (λ found. IfSome found
        (LeadsTo (C.panel checks.now) level.entry at.now)) }
{
    let Some((place, rest)) = at.split_first() else {
        return Ok(Some(level));
    };
    let Some(next) = next_level(alloc, &level, place, checks)? else {
        return Ok(None);
    };
    level_below(alloc, next, rest, checks)
}

/// The sublayout at a place.
fn next_level<'a, C: Checks>(
    alloc: Global,
    level: &FaultLevel<'a>,
    place: &(Text, Text),
    checks: &C,
) -> Result<Option<FaultLevel<'a>>, AllocError>
    ensures { IfOk result (λ found. IfSome found
        (IsBelow (C.panel checks.now) level.now place.now)) }
{
    let Some(below) = sublayout_at(alloc, &level.signed.layout, level.links, place, checks)? else {
        return Ok(None);
    };
    let Some(links) = below.folder else {
        return Ok(None);
    };
    Ok(Some(FaultLevel {
        signed: below.signed,
        links,
        moment: level.moment,
        steps: None,
    }))
}
