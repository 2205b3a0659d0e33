//! Which files are claimed for a step (in-toto 1.0 section 4.4, names of link files).
ghost use Rattle.std.specs.Prelude.{IfOk, map};
ghost use Rattle.it_chain.specs.inside.ClaimedFiles.{AreClaimed};

use it_chain::held_file::HeldFile;
use it_chain::is_claimed;
use std::alloc::{AllocError, Global};

/// Those of the files that are claimed for a step.
pub(crate) fn claimed_files<'a>(
    alloc: Global,
    step: &str,
    files: &'a [HeldFile],
) -> Result<Vec<&'a HeldFile>, AllocError>
    ensures { IfOk result (λ found.
        AreClaimed step.now files.now (map (λ file. file.now) found.items)) }
{
    let mut found = Vec::new(alloc);
    for file in files {
        if is_claimed(step, file.name()) {
            found.push(file)?;
        }
    }
    Ok(found)
}
