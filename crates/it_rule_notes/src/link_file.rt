//! The links that count for key ids of a step.
ghost use Rattle.std.specs.Prelude.{Contains, IfOk, IfSome};
ghost use Rattle.it_rule_notes.specs.CountingFile.{setting_of};
ghost use Rattle.it_rule_notes.specs.LinkFile.{HoldsLink};

use crate::counting_file::{CountingFile, counting_files};
use crate::level::Level;
use it_base::text::Text;
use it_chain::link_in;
use it_docs::link::Link;
use it_docs::step::Step;
use it_dsse::checks::Checks;
use std::alloc::{AllocError, Global};

/// A file that holds a link which counts for a key id.
#[derive(Drop)]
pub struct LinkFile {
    /// The key id.
    pub id: Text,
    /// The name of the file in the layout's folder.
    pub name: Text,
    /// The link.
    pub link: Link,
}

/// The first file that holds a link which counts for a key id of a step.
pub(crate) fn link_file<C: Checks>(
    alloc: Global,
    level: &Level,
    step: &Step,
    id: &str,
    checks: &C,
) -> Result<Option<LinkFile>, AllocError>
    ensures { IfOk result (λ found. IfSome found (HoldsLink
        (setting_of (C.panel checks.now) level.now.moment)
        level.now.layout.now level.now.links.now step.now)) }
{
    let files = counting_files(alloc, level, step, id, checks)?;
    let Some(file) = first_of(files.as_slice()) else {
        return Ok(None);
    };
    let Some(link) = link_in(alloc, file.payload.as_slice())? else {
        return Ok(None);
    };
    Ok(Some(LinkFile {
        id: Text::copy(alloc, id)?,
        name: Text::copy(alloc, file.name.as_str())?,
        link,
    }))
}

fn first_of(files: &[CountingFile]) -> Option<&CountingFile>
    ensures { IfSome result (λ file. Contains files.now file.now) }
{
    files.first()
}
