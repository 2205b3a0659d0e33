//! The notes on the key ids that a step lists.
ghost use Rattle.std.specs.Prelude.{◌≡◌, ◌↔◌, All, Any, Contains, IfOk, IfSome, IsTrue, OnOk};
ghost use Rattle.it_dsse.specs.Panel.{Panel};
ghost use Rattle.it_step_notes.specs.StepNotes.{Holds};

use crate::note::StepNote;
use crate::step_at::StepAt;
use it_base::optional::push_some;
use it_base::text::Text;
use it_chain::folder_name;
use it_chain::held_file::HeldFile;
use std::alloc::{AllocError, Global};

/// Adds the notes on each key id that the step lists.
pub(crate) fn push_id_notes(
    alloc: Global,
    at: &StepAt,
    notes: &mut Vec<StepNote>,
) -> Result<(), AllocError>
    ensures { (panel : Panel) → All (Holds panel at.now.layout.now at.now.bundle.now
        at.now.step.now) notes.old.items → OnOk result (All (Holds panel at.now.layout.now
        at.now.bundle.now at.now.step.now) notes.new.items) }
{
    for id in at.step.pubkeys.as_slice() {
        push_some(notes, no_key(alloc, at, id.as_str())?)?;
        push_some(notes, no_file(alloc, at, id.as_str())?)?;
    }
    Ok(())
}

fn no_key(alloc: Global, at: &StepAt, id: &str) -> Result<Option<StepNote>, AllocError>
    requires { Contains at.now.step.now.pubkeys id.now }
    ensures { IfOk result (λ found. IfSome found (λ note. (panel : Panel)
        → Holds panel at.now.layout.now at.now.bundle.now at.now.step.now note)) }
{
    match at.layout.keys.get(id) {
        Some(_) => Ok(None),
        None => Ok(Some(StepNote::NoKeyObject {
            id: Text::copy(alloc, id)?,
        })),
    }
}

fn no_file(alloc: Global, at: &StepAt, id: &str) -> Result<Option<StepNote>, AllocError>
    requires { Contains at.now.step.now.pubkeys id.now }
    ensures { IfOk result (λ found. IfSome found (λ note. (panel : Panel)
        → Holds panel at.now.layout.now at.now.bundle.now at.now.step.now note)) }
{
    let mut name = folder_name(alloc, at.step.name.as_str(), id)?;
    name.push_str(".link")?;
    if is_there(at.bundle.files(), name.as_str()) {
        return Ok(None);
    }
    Ok(Some(StepNote::NoFile {
        id: Text::copy(alloc, id)?,
        name: Text::from(name),
    }))
}

fn is_there(files: &[HeldFile], name: &str) -> bool
    ensures { IsTrue result ↔ Any (λ file. file.name ≡ name.now) files.now }
{
    files.iter().any(|file| file.name() == name)
}
