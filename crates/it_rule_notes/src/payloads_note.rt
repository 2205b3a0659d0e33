//! Two files whose bodies count for one key id and differ.
ghost use Rattle.std.specs.Prelude.{◌≡◌, ◌≢◌, ◌++◌, Contains, IfOk, IfSome, OnOk};
ghost use Rattle.it_rule_notes.specs.CountingFile.{setting_of};
ghost use Rattle.it_rule_notes.specs.Payloads.{TellsPayloads, files_form, payloads_line};

use crate::counting_file::{CountingFile, counting_files};
use crate::level::Level;
use crate::line::{push_key, push_told};
use it_base::text::Text;
use it_docs::step::step_named;
use it_dsse::checks::Checks;
use std::alloc::{AllocError, Global};

/// Two files with bodies that both count for one key id of a step, and differ.
#[derive(Drop)]
pub struct PayloadsNote {
    /// The name of the step.
    pub step: Text,
    /// The key id.
    pub id: Text,
    /// The name of a file in the layout's folder.
    pub first: Text,
    /// The name of another file there.
    pub second: Text,
}

/// Says which two files hold bodies that count for a key id of a step and differ (in-toto 1.0,
/// section 5.2; that no two may differ is this profile's choice).
///
/// `step` is the name of a step of the layout, `id` the key id, and the `checks` check the
/// signatures. The answer is `None` where there are no two such files.
///
/// # Errors
///
/// `AllocError` where memory was refused.
pub fn payloads_note<C: Checks>(
    alloc: Global,
    level: &Level,
    step: &str,
    id: &str,
    checks: &C,
) -> Result<Option<PayloadsNote>, AllocError>
    ensures { IfOk result (λ found. IfSome found (λ note.
        (note.step ≡ step.now) × (note.id ≡ id.now)
        × TellsPayloads (setting_of (C.panel checks.now) level.now.moment)
        level.now.layout.now level.now.links.now note)) }
{
    let Some(asked) = step_named(level.layout.steps.as_slice(), step) else {
        return Ok(None);
    };
    let files = counting_files(alloc, level, asked, id, checks)?;
    let Some((first, second)) = differing(files.as_slice()) else {
        return Ok(None);
    };
    Ok(Some(PayloadsNote {
        step: Text::copy(alloc, step)?,
        id: Text::copy(alloc, id)?,
        first: Text::copy(alloc, first.name.as_str())?,
        second: Text::copy(alloc, second.name.as_str())?,
    }))
}

/// The first of the files, and one with a different body.
fn differing(files: &[CountingFile]) -> Option<(&CountingFile, &CountingFile)>
    ensures { IfSome result (λ pair. Contains files.now pair.0.now × Contains files.now pair.1.now
        × (pair.0.now.payload ≢ pair.1.now.payload)) }
{
    let first = files.first()?;
    for other in files {
        if first.payload.as_slice() != other.payload.as_slice() {
            return Some((first, other));
        }
    }
    None
}

impl PayloadsNote {
    /// Appends the note as a line for people.
    ///
    /// # Errors
    ///
    /// `AllocError` where memory was refused; a part of the line may have been appended then.
    pub fn push_line(&self, text: &mut Vec<u8>) -> Result<(), AllocError>
        ensures { OnOk result (text.new.items ≡ text.old.items ++ payloads_line self.now) }
    {
        push_key(text, &self.id, &self.step)?;
        push_files(text, &self.first, &self.second)
    }
}

#[tactic(auto, unfolding(crate::specs::Payloads::files_form))]
fn push_files(text: &mut Vec<u8>, first: &Text, second: &Text) -> Result<(), AllocError>
    ensures { OnOk result (text.new.items ≡ text.old.items ++ files_form first.now second.now) }
{
    push_told(text, " the files ", first, "")?;
    push_told(text, " and ", second, " count and differ\n")
}
