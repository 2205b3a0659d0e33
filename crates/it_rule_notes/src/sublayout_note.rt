//! The file that a sublayout is in.
ghost use Rattle.std.specs.Prelude.{◌≡◌, ◌++◌, Contains, IfOk, IfSome, OnOk};
ghost use Rattle.it_rule_notes.specs.CountingFile.{IsLayoutBody, setting_of};
ghost use Rattle.it_rule_notes.specs.Sublayout.{TellsSublayout, sublayout_line};

use crate::counting_file::{CountingFile, counting_files, is_layout};
use crate::level::Level;
use crate::line::{push_key, push_told};
use it_base::text::Text;
use it_docs::step::step_named;
use it_dsse::checks::Checks;
use std::alloc::{AllocError, Global};

/// A file that holds a sublayout which counts for a key id of a step.
#[derive(Drop)]
pub struct SublayoutNote {
    /// The name of the step.
    pub step: Text,
    /// The key id.
    pub id: Text,
    /// The name of the file in the layout's folder.
    pub file: Text,
}

/// Says which file holds a sublayout that counts for a key id of a step (in-toto 1.0, section 5.2).
///
/// `step` is the name of a step of the layout of `level`, `id` the key id, and the `checks` check
/// the signatures. The answer is `None` where no file holds such a sublayout.
///
/// # Errors
///
/// `AllocError` where memory was refused.
pub fn sublayout_note<C: Checks>(
    alloc: Global,
    level: &Level,
    step: &str,
    id: &str,
    checks: &C,
) -> Result<Option<SublayoutNote>, AllocError>
    ensures { IfOk result (λ found. IfSome found (λ note.
        (note.step ≡ step.now) × (note.id ≡ id.now)
        × TellsSublayout (setting_of (C.panel checks.now) level.now.moment)
        level.now.layout.now level.now.links.now note)) }
{
    let Some(asked) = step_named(level.layout.steps.as_slice(), step) else {
        return Ok(None);
    };
    let files = counting_files(alloc, level, asked, id, checks)?;
    let Some(file) = layout_among(alloc, files.as_slice())? else {
        return Ok(None);
    };
    Ok(Some(SublayoutNote {
        step: Text::copy(alloc, step)?,
        id: Text::copy(alloc, id)?,
        file: Text::copy(alloc, file.name.as_str())?,
    }))
}

/// The first of the files that holds a layout.
fn layout_among(alloc: Global, files: &[CountingFile]) -> Result<Option<&CountingFile>, AllocError>
    ensures { IfOk result (λ found. IfSome found (λ file.
        Contains files.now file.now × IsLayoutBody file.now.payload)) }
{
    for file in files {
        if is_layout(alloc, file.payload.as_slice())? {
            return Ok(Some(file));
        }
    }
    Ok(None)
}

impl SublayoutNote {
    /// Appends the note as a line for people.
    ///
    /// # Errors
    ///
    /// `AllocError` where memory was refused; a part of the line may have been appended then.
    pub fn push_line(&self, text: &mut Vec<u8>) -> Result<(), AllocError>
        ensures { OnOk result (text.new.items ≡ text.old.items ++ sublayout_line self.now) }
    {
        push_key(text, &self.id, &self.step)?;
        push_told(text, " the sublayout is in file ", &self.file, "\n")
    }
}
