//! The missing folder of a sublayout.
ghost use Rattle.std.specs.Prelude.{◌≡◌, ◌++◌, IfOk, OnOk};
ghost use Rattle.it_base.specs.Finds.{Finds};
ghost use Rattle.it_step_notes.specs.Folder.{LacksFolder, folder_line};

use it_base::text::Text;
use it_chain::bundle::Bundle;
use it_chain::folder_name;
use it_report::name::push_cut_name;
use std::alloc::{AllocError, Global};

/// A missing folder for the files of a sublayout.
#[derive(Drop)]
pub struct FolderNote {
    /// The name that the folder would have in the folder of the layout above.
    pub folder: Text,
}

/// Says that a bundle has no folder for the sublayout that the key id `id` signed for the step
/// named `step` (in-toto 1.0 section 4.4). A missing folder counts as an empty one.
///
/// The answer is `None` where the folder is there.
///
/// # Errors
///
/// `AllocError` where memory was refused.
pub fn folder_note(
    alloc: Global,
    bundle: &Bundle,
    step: &str,
    id: &str,
) -> Result<Option<FolderNote>, AllocError>
    ensures { IfOk result (Finds (LacksFolder bundle.now step.now id.now)) }
{
    let name = folder_name(alloc, step, id)?;
    if bundle.dir(name.as_str()).is_some() {
        return Ok(None);
    }
    let folder = Text::copy(alloc, name.as_str())?;
    Ok(Some(FolderNote { folder }))
}

impl FolderNote {
    /// Appends the note as a line for people.
    ///
    /// # Errors
    ///
    /// `AllocError` where memory was refused; a part of the line may have been appended then.
    pub fn push_line(&self, text: &mut Vec<u8>) -> Result<(), AllocError>
        ensures { OnOk result (text.new.items ≡ text.old.items ++ folder_line self.now) }
    {
        push_cut_name(text, self.folder.as_str().as_bytes())?;
        text.extend_from_slice(b": no such folder, in which the sublayout's files would be\n")?;
        Ok(())
    }
}
