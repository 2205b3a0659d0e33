//! Sublayouts: how deep they may be nested, what they may not ask for, and where their files are.
ghost use Rattle.std.specs.Prelude.{◌≡◌, ◌≤◌, ◌↔◌, IfOk, IsTrue, OnOk, string_bytes};
ghost use Rattle.it_chain.specs.Answered.{AreWithin};
ghost use Rattle.it_chain.specs.Contents.{empty};
ghost use Rattle.it_chain.specs.Sublayouts.{first_characters, folder_name as folder_name_of};
ghost use Rattle.it_chain.specs.Sublayouts.{folder_of};
ghost use Rattle.it_chain.specs.inside.Answered.{AreAnswers, IsKeptIf};
ghost use Rattle.it_chain.specs.inside.Asked.{Asks};
ghost use Rattle.it_chain.specs.inside.Candidates.{IsBody};
ghost use Rattle.it_chain.specs.inside.Scope.{BodyAnswers, BodyCost, BodyTakes, scope_of};
ghost use Rattle.it_chain.specs.inside.Scope.{SublayoutAnswers, SublayoutCost, SublayoutTakes};
ghost use Rattle.it_chain.specs.inside.Sublayouts.{IsSummarized};
ghost use Rattle.it_chain.specs.declared.body.Body.TheVariants.{Layout as held_layout};
ghost use Rattle.it_docs.specs.Layout.{LayoutOf};

use crate::answered::{Answer, AnsweredSublayouts, raise_by};
use crate::body::Body;
use crate::bundle::Bundle;
use crate::chain::Chain;
use crate::checking::Checking;
use crate::fault::{refused, under};
use crate::level::{Level, verify_level};
use crate::record::Recorded;
use crate::refusal::{ChainError, ChainFault};
use crate::summary::summary_of;
use crate::walk::Walk;
use it_docs::layout::Layout;
use it_dsse::meter::Meter;
use std::alloc::{AllocError, Global};

/// Where a body counts: for a step, under a key id, in a payload.
#[derive(Drop)]
pub(crate) struct BodyAt<'a> {
    /// The name of the step.
    pub step: &'a str,
    /// The key id.
    pub id: &'a str,
    /// The payload that the body was read from.
    pub payload: &'a [u8],
    /// Whether a sublayout may be asked for again: another key id may have it over the same folder.
    pub again: bool,
}

/// The artifacts that the body of a key id records.
#[cycle(level)]
pub(crate) fn verify_body<C: Checking>(
    walk: &Walk<C>,
    at: &BodyAt,
    body: Body,
    answered: &mut AnsweredSublayouts,
    meter: &mut Meter,
) -> Result<Recorded, ChainError>
    requires shallow { walk.now.level.depth ≤ 8 }
    requires reads { IsBody at.now.step.now at.now.payload.now body }
    requires answers { AreAnswers (scope_of C.setting walk.now) answered.old }
    ensures answer { BodyAnswers (scope_of C.setting walk.now) at.now.step.now at.now.id.now body
        result }
    ensures asked { Asks (λ _. 0) (BodyCost (scope_of C.setting walk.now) at.now.step.now
        at.now.id.now body) meter.old meter.new result }
    ensures fewest { IfOk result (λ _. BodyTakes (scope_of C.setting walk.now) at.now.step.now
        at.now.id.now body meter.old meter.new) }
    ensures answers { IfOk result (λ _. AreAnswers (scope_of C.setting walk.now) answered.new) }
{
    match body {
        Body::Link(link) => Ok(Recorded {
            materials: link.materials,
            products: link.products,
        }),
        Body::Layout(sublayout) => {
            let folder = folder_name(walk.alloc, at.step, at.id)?;
            let mut within = answered.take(walk.alloc, folder.as_str());
            let recorded = recorded_by(walk, at, &sublayout, &mut within, meter)?;
            answered.give(folder, within)?;
            Ok(recorded)
        }
    }
}

/// The artifacts that a sublayout records over its own folder. One that was answered over that
/// folder is not verified again.
#[cycle(level)]
fn recorded_by<C: Checking>(
    walk: &Walk<C>,
    at: &BodyAt,
    sublayout: &Layout,
    within: &mut AnsweredSublayouts,
    meter: &mut Meter,
) -> Result<Recorded, ChainError>
    requires shallow { walk.now.level.depth ≤ 8 }
    requires reads { LayoutOf at.now.payload.now sublayout.now }
    requires within { AreWithin (C.setting walk.now.checking.now) walk.now.level.depth
        (folder_of at.now.step.now at.now.id.now walk.now.level.links.now) within.old }
    ensures answer { BodyAnswers (scope_of C.setting walk.now) at.now.step.now at.now.id.now
        (held_layout sublayout.now) result }
    ensures asked { Asks (λ _. 0) (BodyCost (scope_of C.setting walk.now) at.now.step.now
        at.now.id.now (held_layout sublayout.now)) meter.old meter.new result }
    ensures fewest { IfOk result (λ _. BodyTakes (scope_of C.setting walk.now) at.now.step.now
        at.now.id.now (held_layout sublayout.now) meter.old meter.new) }
    ensures within { IfOk result (λ _. AreWithin (C.setting walk.now.checking.now)
        walk.now.level.depth (folder_of at.now.step.now at.now.id.now walk.now.level.links.now)
        within.new) }
{
    let alloc = walk.alloc;
    if let Some(recorded) = within.recall(alloc, at.payload, meter)? {
        return Ok(recorded);
    }
    let mut asked = Meter { asked: 0 };
    let chain = verify_sublayout(walk, at, sublayout, within, &mut asked);
    raise_by(meter, asked);
    let recorded = summarized(alloc, at.step, at.id, chain)?;
    keep_recorded(alloc, at, within, &recorded, asked)?;
    Ok(recorded)
}

/// Keeps what a sublayout records, and what was asked for that, where it may be asked for again.
fn keep_recorded(
    alloc: Global,
    at: &BodyAt,
    within: &mut AnsweredSublayouts,
    recorded: &Recorded,
    asked: Meter,
) -> Result<(), AllocError>
    ensures { OnOk result (IsKeptIf at.now.again within.old within.new at.now.payload.now
        (record { recorded = recorded.now; asked = asked })) }
{
    if !at.again {
        return Ok(());
    }
    let answer = Answer {
        recorded: recorded.copy(alloc)?,
        asked,
    };
    within.keep(Vec::from_slice(alloc, at.payload)?, answer)
}

/// What a sublayout gives the step that it was signed for under a key id, or its error.
fn summarized(
    alloc: Global,
    step: &str,
    id: &str,
    chain: Result<Chain, ChainError>,
) -> Result<Recorded, ChainError>
    ensures { IsSummarized step.now id.now chain result }
{
    match chain {
        Ok(chain) => Ok(summary_of(alloc, chain.steps.into_vec())),
        Err(error) => Err(under(alloc, step, id, error)),
    }
}

/// The records of a sublayout over its own folder.
#[cycle(level)]
fn verify_sublayout<C: Checking>(
    walk: &Walk<C>,
    at: &BodyAt,
    sublayout: &Layout,
    within: &mut AnsweredSublayouts,
    meter: &mut Meter,
) -> Result<Chain, ChainError>
    requires shallow { walk.now.level.depth ≤ 8 }
    requires within { AreWithin (C.setting walk.now.checking.now) walk.now.level.depth
        (folder_of at.now.step.now at.now.id.now walk.now.level.links.now) within.old }
    ensures answer { SublayoutAnswers (scope_of C.setting walk.now) at.now.step.now at.now.id.now
        sublayout.now result }
    ensures asked { Asks (λ _. 0) (SublayoutCost (scope_of C.setting walk.now) at.now.step.now
        at.now.id.now sublayout.now) meter.old meter.new result }
    ensures fewest { IfOk result (λ _. SublayoutTakes (scope_of C.setting walk.now)
        at.now.step.now at.now.id.now sublayout.now meter.old meter.new) }
    ensures within { IfOk result (λ _. AreWithin (C.setting walk.now.checking.now)
        walk.now.level.depth (folder_of at.now.step.now at.now.id.now walk.now.level.links.now)
        within.new) }
{
    let alloc = walk.alloc;
    if walk.level.is_deepest() {
        return Err(refused(alloc, ChainFault::TooDeep));
    }
    if !sublayout.inspections.as_slice().is_empty() {
        return Err(refused(alloc, ChainFault::InspectionInSublayout));
    }
    let none = Bundle::new(alloc);
    let folder = folder_of_body(alloc, walk.level.links, at, &none)?;
    let below = Level {
        layout: sublayout,
        links: folder,
        depth: walk.level.depth - 1,
        again: at.again,
    };
    let deeper = Walk {
        alloc,
        checking: walk.checking,
        level: below,
    };
    verify_level(&deeper, within, meter)
}

/// The folder that the files of a sublayout are in; a missing one is empty.
fn folder_of_body<'b>(
    alloc: Global,
    links: &'b Bundle,
    at: &BodyAt,
    none: &'b Bundle,
) -> Result<&'b Bundle, AllocError>
    requires { none.now ≡ empty }
    ensures { IfOk result
        (λ folder. folder.now ≡ folder_of at.now.step.now at.now.id.now links.now) }
{
    let name = folder_name(alloc, at.step, at.id)?;
    Ok(links.dir(name.as_str()).unwrap_or(none))
}

impl<'a> Level<'a> {
    /// Whether no sublayout is allowed below.
    fn is_deepest(&self) -> bool
        ensures { IsTrue result ↔ (self.now.depth ≡ 0) }
    {
        self.depth == 0
    }
}

/// The name of the folder that the files of a sublayout are in: the name of the step, a full stop,
/// and the first 8 characters of the key id that signed the sublayout (in-toto 1.0 section 4.4).
///
/// # Errors
///
/// `AllocError` where memory was refused.
pub fn folder_name(alloc: Global, step: &str, id: &str) -> Result<String, AllocError>
    ensures { IfOk result (λ name. string_bytes name ≡ folder_name_of step.now id.now) }
{
    let mut name = String::from_str(alloc, step)?;
    name.push('.')?;
    let first = first_eight(alloc, id)?;
    name.push_str(first.as_str())?;
    Ok(name)
}

/// The first 8 characters of a text.
fn first_eight(alloc: Global, text: &str) -> Result<String, AllocError>
    ensures { IfOk result (λ first. string_bytes first ≡ first_characters 8 text.now) }
{
    text.chars().take(8).collect(alloc)
}
