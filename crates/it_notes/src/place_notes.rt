//! The place of the sublayout that a refusal is about.
ghost use Rattle.std.specs.Prelude.{IfOk, IfSome};
ghost use Rattle.it_step_notes.specs.Folder.{LacksFolder};
ghost use Rattle.it_notes.specs.Known.{IsKnown};
ghost use Rattle.it_notes.specs.PlaceNotes.{TellsFile, TellsPlace};

use crate::fault_level::{FaultLevel, level_reached, sublayout_reached};
use crate::known::Known;
use it_base::text::Text;
use it_dsse::checks::Checks;
use it_report::refusal::{Fault, Refusal};
use it_rule_notes::level::Level;
use it_rule_notes::sublayout_note::{SublayoutNote, sublayout_note};
use it_step_notes::folder_note::{FolderNote, folder_note};
use std::alloc::{AllocError, Global};

/// The place of the sublayout that a refusal is about.
#[derive(Drop)]
pub struct PlaceNotes {
    /// The file that it is in.
    pub file: Option<SublayoutNote>,
    /// The folder of its files, if it is missing.
    pub folder: Option<FolderNote>,
}

/// The place of the sublayout that a refusal is about, or `None` if it is about none, or its places
/// lead to none.
pub(crate) fn place_notes<C: Checks>(
    alloc: Global,
    known: &Known,
    refusal: &Refusal,
    checks: &C,
) -> Result<Option<PlaceNotes>, AllocError>
    requires { IsKnown (C.panel checks.now) known.now.inputs.now known.now }
    ensures { IfOk result (λ found. IfSome found
        (TellsPlace (C.panel checks.now) known.now.inputs.now refusal.now.at)) }
{
    let Some((last, before)) = refusal.at.as_slice().split_last() else {
        return Ok(None);
    };
    let sublayout = sublayout_reached(alloc, known, before, checks)?;
    let Some(level) = level_reached(known, before, &sublayout) else {
        return Ok(None);
    };
    let file = file_of(alloc, level, last, checks)?;
    let folder = missing_folder(alloc, level, last, &refusal.fault)?;
    Ok(Some(PlaceNotes { file, folder }))
}

/// The file that holds the sublayout at a place.
fn file_of<C: Checks>(
    alloc: Global,
    level: &FaultLevel,
    place: &(Text, Text),
    checks: &C,
) -> Result<Option<SublayoutNote>, AllocError>
    ensures { IfOk result (λ found. IfSome found
        (TellsFile (C.panel checks.now) level.now place.now)) }
{
    let level = Level {
        layout: &level.signed.layout,
        links: level.links,
        moment: level.moment,
    };
    sublayout_note(alloc, &level, place.0.as_str(), place.1.as_str(), checks)
}

/// The folder of the sublayout at a place, where it is missing and a step has too few keys. Nothing
/// is noted for a sublayout nested too deep: its folder was not read.
fn missing_folder(
    alloc: Global,
    level: &FaultLevel,
    place: &(Text, Text),
    fault: &Fault,
) -> Result<Option<FolderNote>, AllocError>
    ensures { IfOk result (λ found. IfSome found
        (LacksFolder level.now.links.now place.now.0 place.now.1)) }
{
    match fault {
        Fault::Threshold { .. } => {
            folder_note(alloc, level.links, place.0.as_str(), place.1.as_str())
        }
        _ => Ok(None),
    }
}
