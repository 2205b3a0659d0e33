//! Why an artifact rule fails with a path.
ghost use Rattle.std.specs.Prelude.{◌≡◌, ◌++◌, All, IfOk, IfSome, OnOk};
ghost use Rattle.it_rule_notes.specs.Cause.{IsCause, TellsCause, cause_form, cause_line};
ghost use Rattle.it_rule_notes.specs.Cause.{near_path_form};
ghost use Rattle.it_rule_notes.specs.inside.JudgedRules.{judging_in};

use crate::judged::JudgedRules;
use crate::line::push_told;
use crate::met::Met;
use crate::miss_line::push_missed;
use crate::missed::{Missed, closest, with_near};
use crate::near::near_path;
use crate::rule_place::{RulePlace, place_of, push_place};
use crate::target::is_matched;
use it_base::optional::push_some;
use it_base::text::Text;
use std::alloc::{AllocError, Global};

/// Why a rule fails with a path.
#[derive(Drop)]
pub enum Cause {
    /// A `MATCH` before the rule looks for the path, and does not take it.
    Missed(Missed),
    /// No `MATCH` before the rule looks for the path.
    Unmatched,
    /// A path much like it is there.
    Near(Text),
}

/// Why a rule fails with a path, and where it stands.
#[derive(Drop)]
pub struct CauseNote {
    /// Where the rule stands.
    pub place: RulePlace,
    /// The path.
    pub path: Text,
    /// Why the rule fails with it.
    pub cause: Cause,
}

/// Why the rule at a place fails with the paths that it met: for each path that it forbids, which
/// earlier `MATCH` comes closest to taking it; for a required path that is not there, a path much
/// like it.
pub(crate) fn causes_of(
    alloc: Global,
    judged: &JudgedRules,
    place: &RulePlace,
    met: &Met,
) -> Result<Vec<CauseNote>, AllocError>
    ensures { IfOk result (λ notes.
        All (TellsCause (judging_in judged.now) place.now) notes.items) }
{
    match met {
        Met::Forbidden(found) => forbidden_causes(alloc, judged, place, found.paths.as_slice()),
        Met::Absent(path) => absent_causes(alloc, judged, place, path.as_str()),
        Met::Consumed(_) => Ok(Vec::new(alloc)),
    }
}

/// Why the paths are left to the rule at a place, which forbids them.
fn forbidden_causes(
    alloc: Global,
    judged: &JudgedRules,
    place: &RulePlace,
    paths: &[Text],
) -> Result<Vec<CauseNote>, AllocError>
    ensures { IfOk result (λ notes.
        All (TellsCause (judging_in judged.now) place.now) notes.items) }
{
    let mut notes = Vec::new(alloc);
    for path in paths {
        push_some(
            &mut notes,
            forbidden_cause(alloc, judged, place, path.as_str())?,
        )?;
    }
    Ok(notes)
}

/// Why a path is left to the rule at a place.
fn forbidden_cause(
    alloc: Global,
    judged: &JudgedRules,
    place: &RulePlace,
    path: &str,
) -> Result<Option<CauseNote>, AllocError>
    ensures { IfOk result (λ found. IfSome found
        (TellsCause (judging_in judged.now) place.now)) }
{
    match cause_before(alloc, judged, place.index, path)? {
        Some(cause) => Ok(Some(cause_note(alloc, place, path, cause)?)),
        None => Ok(None),
    }
}

/// Why no `MATCH` before the index takes a path.
fn cause_before(
    alloc: Global,
    judged: &JudgedRules,
    index: usize,
    path: &str,
) -> Result<Option<Cause>, AllocError>
    ensures { IfOk result (λ found. IfSome found
        (IsCause (judging_in judged.now) index path.now)) }
{
    if let Some(missed) = closest(alloc, judged, index, path)? {
        return Ok(Some(Cause::Missed(with_near(alloc, judged, missed)?)));
    }
    if is_matched(alloc, judged, index, path)? {
        return Ok(None);
    }
    Ok(Some(Cause::Unmatched))
}

/// A path much like the required one, which is not there, for the rule at a place.
fn absent_causes(
    alloc: Global,
    judged: &JudgedRules,
    place: &RulePlace,
    path: &str,
) -> Result<Vec<CauseNote>, AllocError>
    ensures { IfOk result (λ notes.
        All (TellsCause (judging_in judged.now) place.now) notes.items) }
{
    let mut notes = Vec::new(alloc);
    let artifacts = judged.item.artifacts_on(judged.side);
    if let Some(near) = near_path(alloc, artifacts, path)? {
        notes.push(cause_note(alloc, place, path, Cause::Near(near))?)?;
    }
    Ok(notes)
}

/// The note on the cause.
fn cause_note(
    alloc: Global,
    place: &RulePlace,
    path: &str,
    cause: Cause,
) -> Result<CauseNote, AllocError>
    ensures { IfOk result (λ note.
        note ≡ record { place = place.now; path = path.now; cause = cause }) }
{
    Ok(CauseNote {
        place: place_of(alloc, place)?,
        path: Text::copy(alloc, path)?,
        cause,
    })
}

impl CauseNote {
    /// Appends the note as a line for people.
    ///
    /// # Errors
    ///
    /// `AllocError` where memory was refused; a part of the line may have been appended then.
    pub fn push_line(&self, text: &mut Vec<u8>) -> Result<(), AllocError>
        ensures { OnOk result (text.new.items ≡ text.old.items ++ cause_line self.now) }
    {
        push_cause(text, &self.place, &self.path, &self.cause)
    }
}

fn push_cause(
    text: &mut Vec<u8>,
    place: &RulePlace,
    path: &Text,
    cause: &Cause,
) -> Result<(), AllocError>
    ensures { OnOk result
        (text.new.items ≡ text.old.items ++ cause_form place.now path.now cause.now) }
{
    match cause {
        Cause::Missed(missed) => push_missed(text, place, path, missed),
        Cause::Unmatched => {
            push_place(text, place)?;
            push_told(text, ": no MATCH before it matches ", path, "\n")
        }
        Cause::Near(near) => {
            push_place(text, place)?;
            push_near_path(text, path, near)
        }
    }
}

#[tactic(auto, unfolding(crate::specs::Cause::near_path_form))]
fn push_near_path(text: &mut Vec<u8>, path: &Text, near: &Text) -> Result<(), AllocError>
    ensures { OnOk result (text.new.items ≡ text.old.items ++ near_path_form path.now near.now) }
{
    push_told(text, ": nearest to ", path, " is ")?;
    push_told(text, "", near, "\n")
}
