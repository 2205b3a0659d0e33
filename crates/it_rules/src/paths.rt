//! The paths of a map.
ghost use Rattle.std.specs.Prelude.{◌≡◌, IfOk, map};
ghost use Rattle.std.specs.FinMap.{keys};
ghost use Rattle.it_rules.specs.Paths.{ArePathsOf};

use it_digest::artifacts::Artifacts;
use std::alloc::{AllocError, Global};

/// The paths of a map, in the order of their bytes.
///
/// # Errors
///
/// `AllocError` where memory was refused.
pub fn paths_of(alloc: Global, artifacts: &Artifacts) -> Result<Vec<&str>, AllocError>
    ensures whole { IfOk result (λ paths. map (λ path. path.now) paths.items ≡ keys artifacts.now) }
    ensures paths { IfOk result (λ paths. ArePathsOf artifacts.now paths.items) }
{
    let mut paths = Vec::new(alloc);
    for path in artifacts.paths() {
        paths.push(path.as_str())?;
    }
    Ok(paths)
}
