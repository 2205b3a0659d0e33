//! The sublayouts that count, at every depth.
ghost use Rattle.std.specs.Prelude.{◌≡◌, ◌≤◌, ◌++◌, ◌∷◌, [], List, IfOk};
ghost use Rattle.it_sublayouts.specs.Counted.{AreCountedIn, LevelStands, folders_of};
ghost use Rattle.it_sublayouts.specs.declared.counted.CountedSublayout.{CountedSublayout as Listed};
ghost use Rattle.it_sublayouts.specs.inside.Below.{AreAnswers, AreListed, AreListedWith, IdListed};
ghost use Rattle.it_sublayouts.specs.inside.Below.{IsWithThoseBelow};
ghost use Rattle.it_sublayouts.specs.inside.Below.{LevelListedAfter, Lists, SignerStands};
ghost use Rattle.it_sublayouts.specs.inside.Below.{StepListed, StepStands};
ghost use Rattle.it_sublayouts.specs.inside.Signed.{IsSignedFor};

use crate::counted::CountedSublayout;
use crate::layout_files::layout_files;
use crate::level::{Level, StepAt};
use crate::listed::ListedSublayouts;
use crate::place::{folders_at, place_below};
use crate::records::records_of;
use crate::signed_layout::{SignedLayout, read, signed_for};
use crate::walk::Walk;
use it_base::sequence::Sequence;
use it_base::text::Text;
use it_chain::answered::AnsweredSublayouts;
use it_chain::bundle::Bundle;
use it_chain::folder_name;
use it_chain::signers::{Signer, signers};
use it_dsse::checks::Checks;
use std::alloc::{AllocError, Global};

/// A sublayout that was not listed before.
#[derive(Drop)]
struct Unlisted<'s> {
    /// The key id that signed it.
    id: &'s str,
    /// The places down to it.
    place: Vec<(Text, Text)>,
    /// The sublayout.
    signed: SignedLayout,
}

/// The sublayouts that count for the steps of a layout which holds for its bundle, and those that
/// count for theirs, down to the depth: the steps in the layout's order, for each the key ids in
/// the order of their bytes, and after each sublayout those below it (in-toto 1.0, sections 4.4
/// and 5.2). A sublayout is listed once over a folder, at the first of its places there: it holds
/// with the same records wherever it leads to that folder, and has the same sublayouts below it.
///
/// The `checks` check the signatures. For each layout that is listed over a folder, each file of
/// the folder that says that it is a layout is read as one, and those that are one are looked at
/// for each key id of each step. Each sublayout that is listed is read again, and verified again
/// for its records. What it comes to is kept over its folder until all are listed, so that it is
/// not verified again for a sublayout above it. Where no file is a layout, no signature is checked.
///
/// # Errors
///
/// `AllocError` where memory was refused, or where the checks refuse to check more signatures.
pub fn counted_sublayouts<C: Checks>(
    alloc: Global,
    level: &Level,
    checks: &C,
) -> Result<Vec<CountedSublayout>, AllocError>
    requires shallow { level.now.depth ≤ 8 }
    requires holds { LevelStands (C.panel checks.now) level.now }
    ensures { IfOk result (λ found. AreCountedIn (C.panel checks.now) level.now found.items) }
{
    let walk = Walk { alloc, checks };
    let mut listed = ListedSublayouts::new(alloc);
    let mut answered = AnsweredSublayouts::new(alloc);
    level_sublayouts(&walk, level, &mut listed, &mut answered)
}

/// Those that were not listed before.
#[cycle(sublayouts)]
fn level_sublayouts<C: Checks>(
    walk: &Walk<C>,
    level: &Level,
    listed: &mut ListedSublayouts,
    answered: &mut AnsweredSublayouts,
) -> Result<Vec<CountedSublayout>, AllocError>
    requires shallow { level.now.depth ≤ 8 }
    requires holds { LevelStands (C.panel walk.now.checks.now) level.now }
    requires answers { AreAnswers (C.panel walk.now.checks.now) level.now answered.old }
    ensures lists { IfOk result (λ found.
        Lists (LevelListedAfter (C.panel walk.now.checks.now) level.now)
        listed.old listed.new found.items) }
    ensures answers { IfOk result (λ _.
        AreAnswers (C.panel walk.now.checks.now) level.now answered.new) }
{
    let files = layout_files(walk.alloc, level.links.files())?;
    let files = files.as_slice();
    let mut found = Vec::new(walk.alloc);
    for step in level.layout.steps.as_slice() {
        let at = StepAt { level, files, step };
        let mut here = step_sublayouts(walk, &at, listed, answered)?;
        found.append(&mut here)?;
    }
    Ok(found)
}

/// Those of them that count for a step, each with those below it.
#[cycle(sublayouts)]
fn step_sublayouts<C: Checks>(
    walk: &Walk<C>,
    at: &StepAt,
    listed: &mut ListedSublayouts,
    answered: &mut AnsweredSublayouts,
) -> Result<Vec<CountedSublayout>, AllocError>
    requires shallow { at.now.level.now.depth ≤ 8 }
    requires step { StepStands (C.panel walk.now.checks.now) at.now }
    requires answers { AreAnswers (C.panel walk.now.checks.now) at.now.level.now answered.old }
    ensures lists { IfOk result (λ found.
        Lists (StepListed (C.panel walk.now.checks.now) at.now)
        listed.old listed.new found.items) }
    ensures answers { IfOk result (λ _.
        AreAnswers (C.panel walk.now.checks.now) at.now.level.now answered.new) }
{
    let signers = signers(walk.alloc, at.level.layout, at.step)?;
    let mut found = Vec::new(walk.alloc);
    for signer in signers.as_slice() {
        let mut here = id_sublayouts(walk, at, signer, listed, answered)?;
        found.append(&mut here)?;
    }
    Ok(found)
}

/// The one that counts for a step under a key id, and those below it; none where it was listed over
/// the same folder.
#[cycle(sublayouts)]
fn id_sublayouts<C: Checks>(
    walk: &Walk<C>,
    at: &StepAt,
    signer: &Signer,
    listed: &mut ListedSublayouts,
    answered: &mut AnsweredSublayouts,
) -> Result<Vec<CountedSublayout>, AllocError>
    requires shallow { at.now.level.now.depth ≤ 8 }
    requires step { StepStands (C.panel walk.now.checks.now) at.now }
    requires signer { SignerStands at.now signer.now }
    requires answers { AreAnswers (C.panel walk.now.checks.now) at.now.level.now answered.old }
    ensures lists { IfOk result (λ found.
        Lists (IdListed (C.panel walk.now.checks.now) at.now signer.now.id.now)
        listed.old listed.new found.items) }
    ensures answers { IfOk result (λ _.
        AreAnswers (C.panel walk.now.checks.now) at.now.level.now answered.new) }
{
    let alloc = walk.alloc;
    let Some(payload) = signed_for(at, signer, walk.checks)? else {
        return Ok(Vec::new(alloc));
    };
    let place = place_below(alloc, at.level.at, at.step.name.as_str(), signer.id)?;
    let folders = folders_at(alloc, place.as_slice())?;
    let is_new = listed.add(folders, Vec::from_slice(alloc, payload)?)?;
    if !is_new {
        return Ok(Vec::new(alloc));
    }
    let signed = read(alloc, payload)?;
    let sublayout = Unlisted {
        id: signer.id,
        place,
        signed,
    };
    with_those_below(walk, at, sublayout, listed, answered)
}

/// A sublayout that counts for a step under a key id and is listed now, and then those below it.
#[cycle(sublayouts)]
fn with_those_below<C: Checks>(
    walk: &Walk<C>,
    at: &StepAt,
    sublayout: Unlisted,
    listed: &mut ListedSublayouts,
    answered: &mut AnsweredSublayouts,
) -> Result<Vec<CountedSublayout>, AllocError>
    requires shallow { at.now.level.now.depth ≤ 8 }
    requires step { StepStands (C.panel walk.now.checks.now) at.now }
    requires counts { IsSignedFor (C.panel walk.now.checks.now) at.now.level.now.layout.now
        at.now.level.now.links.now at.now.step.now sublayout.id.now sublayout.signed }
    requires place { sublayout.place.items
        ≡ at.now.level.now.at.now ++ (at.now.step.now.name, sublayout.id.now) ∷ [] }
    requires answers { AreAnswers (C.panel walk.now.checks.now) at.now.level.now answered.old }
    ensures lists { IfOk result (λ found. (before : List Listed)
        → AreListedWith listed.old before (folders_of sublayout.entry.place.items)
        sublayout.entry.signed.payload
        → IsWithThoseBelow (C.panel walk.now.checks.now) at.now sublayout.entry.id.now before
        found.items
        × AreListed listed.new (before ++ found.items)) }
    ensures answers { IfOk result (λ _.
        AreAnswers (C.panel walk.now.checks.now) at.now.level.now answered.new) }
{
    let Unlisted { id, place, signed } = sublayout;
    let alloc = walk.alloc;
    let level = at.level;
    let name = folder_name(alloc, at.step.name.as_str(), id)?;
    let none = Bundle::new(alloc);
    let below = Level {
        at: place.as_slice(),
        layout: &signed.layout,
        links: level.links.dir(name.as_str()).unwrap_or(&none),
        moment: level.moment,
        depth: level.depth - 1,
    };
    let mut within = answered.take(alloc, name.as_str());
    let steps = records_of(walk, &below, &mut within)?;
    let mut found = level_sublayouts(walk, &below, listed, &mut within)?;
    answered.give(name, within)?;
    let SignedLayout { payload, layout } = signed;
    let first = CountedSublayout {
        at: Sequence::from(place),
        payload,
        layout,
        steps,
    };
    found.insert(0, first)?;
    Ok(found)
}
