//! Paths that are much like another one.
ghost use Rattle.std.specs.Prelude.{IfOk, IfSome};
ghost use Rattle.it_rule_notes.specs.Near.{IsCore, IsNear};
ghost use Rattle.it_rule_notes.specs.inside.Cores.{IsAfterFolder, IsBeforeEnd};

use it_base::text::Text;
use it_digest::artifacts::Artifacts;
use std::alloc::{AllocError, Global};

/// How much of two paths has to be the same.
#[derive(Clone, Copy, Debug)]
enum Likeness {
    /// All but a `./` before them.
    Form,
    /// The name of the file.
    Name,
}

/// The first path of the artifacts that differs from a path only in a `./` before it, in the case
/// of its ASCII letters or in a carriage return at its end, or otherwise the first that differs
/// from it in no more than that and the folder.
pub(crate) fn near_path(
    alloc: Global,
    artifacts: &Artifacts,
    path: &str,
) -> Result<Option<Text>, AllocError>
    ensures { IfOk result (λ found. IfSome found (IsNear artifacts.now path.now)) }
{
    match first_like(alloc, artifacts, path, Likeness::Form)? {
        Some(near) => Ok(Some(near)),
        None => first_like(alloc, artifacts, path, Likeness::Name),
    }
}

/// The first path of the artifacts that is so much like a path.
fn first_like(
    alloc: Global,
    artifacts: &Artifacts,
    path: &str,
    likeness: Likeness,
) -> Result<Option<Text>, AllocError>
    ensures { IfOk result (λ found. IfSome found (IsNear artifacts.now path.now)) }
{
    let wanted = core_of(path, likeness).to_ascii_lowercase(alloc)?;
    for other in artifacts.paths() {
        let other = other.as_str();
        let core = core_of(other, likeness).to_ascii_lowercase(alloc)?;
        if core == wanted {
            return Ok(Some(Text::copy(alloc, other)?));
        }
    }
    Ok(None)
}

/// The part of a path that has to be the same.
fn core_of(path: &str, likeness: Likeness) -> &str
    ensures { IsCore path.now result.now }
{
    without_end(after_folder(path, likeness))
}

/// What comes after a `./`, or after the last slash or backslash.
fn after_folder(path: &str, likeness: Likeness) -> &str
    ensures { IsAfterFolder path.now result.now }
{
    match likeness {
        Likeness::Form => without_dot(path),
        Likeness::Name => file_name(path),
    }
}

fn without_dot(path: &str) -> &str
    ensures { IsAfterFolder path.now result.now }
{
    match path.strip_prefix("./") {
        Some(rest) => rest,
        None => path,
    }
}

/// What comes after the last slash, or otherwise after the last backslash.
fn file_name(path: &str) -> &str
    ensures { IsAfterFolder path.now result.now }
{
    match path.rsplit_once('/') {
        Some((_, name)) => name,
        None => after_backslash(path),
    }
}

fn after_backslash(path: &str) -> &str
    ensures { IsAfterFolder path.now result.now }
{
    match path.rsplit_once('\\') {
        Some((_, name)) => name,
        None => path,
    }
}

/// What comes before a carriage return at the end.
fn without_end(path: &str) -> &str
    ensures { IsBeforeEnd path.now result.now }
{
    match path.strip_suffix('\r') {
        Some(rest) => rest,
        None => path,
    }
}
