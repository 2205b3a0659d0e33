//! The notes on files whose names nearly claim them for a step.
ghost use Rattle.std.specs.Prelude.{◌↔◌, All, Contains, IfOk, IfSome, IsTrue, OnOk};
ghost use Rattle.it_dsse.specs.Panel.{Panel};
ghost use Rattle.it_chain.specs.Contents.{files_of};
ghost use Rattle.it_step_notes.specs.StepNotes.{HasEnds, Holds, IsNear};

use crate::note::StepNote;
use crate::step_at::StepAt;
use it_base::optional::push_some;
use it_base::text::Text;
use it_chain::held_file::HeldFile;
use it_chain::is_claimed;
use std::alloc::{AllocError, Global};

/// Adds each file whose name nearly claims it for the step.
pub(crate) fn push_near_names(
    alloc: Global,
    at: &StepAt,
    notes: &mut Vec<StepNote>,
) -> Result<(), AllocError>
    ensures { (panel : Panel) → All (Holds panel at.now.layout.now at.now.bundle.now
        at.now.step.now) notes.old.items → OnOk result (All (Holds panel at.now.layout.now
        at.now.bundle.now at.now.step.now) notes.new.items) }
{
    for file in at.bundle.files() {
        push_some(notes, near_name(alloc, at, file)?)?;
    }
    Ok(())
}

fn near_name(alloc: Global, at: &StepAt, file: &HeldFile) -> Result<Option<StepNote>, AllocError>
    requires { Contains (files_of at.now.bundle.now) file.now }
    ensures { IfOk result (λ found. IfSome found (λ note. (panel : Panel)
        → Holds panel at.now.layout.now at.now.bundle.now at.now.step.now note)) }
{
    let name = file.name();
    let step = at.step.name.as_str();
    if is_claimed(step, name) {
        return Ok(None);
    }
    if is_near(alloc, step, name)? {
        return Ok(Some(StepNote::NearlyClaims {
            name: Text::copy(alloc, name)?,
        }));
    }
    Ok(None)
}

/// Whether a name begins with the step's name and a full stop, and ends with `.link`.
fn is_near(alloc: Global, step: &str, name: &str) -> Result<bool, AllocError>
    ensures { IfOk result (λ is. IsTrue is ↔ IsNear step.now name.now) }
{
    let mut front = String::from_str(alloc, step)?;
    front.push('.')?;
    Ok(has_ends(name, front.as_str()))
}

fn has_ends(name: &str, front: &str) -> bool
    ensures { IsTrue result ↔ HasEnds front.now name.now }
{
    let bytes = name.as_bytes();
    bytes.starts_with(front.as_bytes()) && bytes.ends_with(b".link")
}
