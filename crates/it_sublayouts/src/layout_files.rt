//! The files that are layouts.
ghost use Rattle.std.specs.Prelude.{◌↔◌, IfOk, IsTrue, map};
ghost use Rattle.it_docs.specs.Layout.{LayoutOf};
ghost use Rattle.it_dsse.specs.Signed.{AreThose};
ghost use Rattle.it_sublayouts.specs.inside.Signed.{IsLayoutFile};

use it_chain::held_file::HeldFile;
use it_chain::{candidate_in, layout_in};
use it_skim::object_has_text;
use std::alloc::{AllocError, Global};

/// Those files that are envelopes of the in-toto type with a layout, whoever signed them.
pub(crate) fn layout_files(alloc: Global, files: &[HeldFile]) -> Result<Vec<&HeldFile>, AllocError>
    ensures { IfOk result (λ kept.
        AreThose IsLayoutFile files.now (map (λ file. file.now) kept.items)) }
{
    let mut kept = Vec::new(alloc);
    for file in files {
        let is_layout = is_layout_file(alloc, file)?;
        if is_layout {
            kept.push(file)?;
        }
    }
    Ok(kept)
}

/// Whether a file is an envelope of the in-toto type with a layout.
fn is_layout_file(alloc: Global, file: &HeldFile) -> Result<bool, AllocError>
    ensures { IfOk result (λ is. IsTrue is ↔ IsLayoutFile file.now) }
{
    match candidate_in(file) {
        Some(envelope) => is_layout(alloc, envelope.payload.as_slice()),
        None => Ok(false),
    }
}

/// Whether a payload is a layout. One that does not say that it is one is not read any further.
fn is_layout(alloc: Global, payload: &[u8]) -> Result<bool, AllocError>
    ensures { IfOk result (λ is. IsTrue is ↔ ((layout : _) × LayoutOf payload.now layout)) }
{
    if !object_has_text(alloc, payload, "_type", "layout")? {
        return Ok(false);
    }
    let layout = layout_in(alloc, payload)?;
    Ok(layout.is_some())
}
