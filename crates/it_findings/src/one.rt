//! One finding, or none.
ghost use Rattle.std.specs.Prelude.{◌≡◌, ◌∷◌, [], IfOk, IsTrue};
ghost use Rattle.it_findings.specs.Joined.{Said};

use crate::finding::Finding;
use std::alloc::{AllocError, Global};

/// One finding alone.
pub(crate) fn one(alloc: Global, finding: Finding) -> Result<Vec<Finding>, AllocError>
    ensures { IfOk result (λ found. found.items ≡ finding ∷ []) }
{
    let mut found = Vec::new(alloc);
    found.push(finding)?;
    Ok(found)
}

/// The finding where it `holds`, and otherwise nothing.
pub(crate) fn said(alloc: Global, holds: bool, finding: Finding) -> Result<Vec<Finding>, AllocError>
    ensures { IfOk result (λ found. Said (IsTrue holds) finding found.items) }
{
    if holds {
        one(alloc, finding)
    } else {
        Ok(Vec::new(alloc))
    }
}
