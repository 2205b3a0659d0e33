//! The prefixes of a `MATCH` rule (in-toto 1.0, section 4.3.3).
ghost use Rattle.std.specs.Prelude.{◌≡◌, ◌≢◌, ◌++◌, List, ℕ, IfOk, MatchOption, string_bytes};
ghost use Rattle.it_rules.specs.FolderPrefix.{folder_prefix, lacks_slash as lacks_slash_of};

use std::alloc::{AllocError, Global};

/// What is left of a path after a folder's prefix, where the path has that prefix. An empty prefix
/// is that of every path, and the slash after any other may be left out of it. Takes no memory.
pub fn strip_folder<'a>(path: &'a str, prefix: &str) -> Option<&'a str>
    ensures { MatchOption result ((rest : List ℕ) → path.now ≢ folder_prefix prefix.now ++ rest)
        (λ rest. path.now ≡ folder_prefix prefix.now ++ rest.now) }
{
    let rest = path.strip_prefix(prefix)?;
    if lacks_slash(prefix) {
        rest.strip_prefix('/')
    } else {
        Some(rest)
    }
}

/// A folder's prefix with a path below the folder.
///
/// # Errors
///
/// `AllocError` where memory was refused.
pub fn join_folder(alloc: Global, prefix: &str, rest: &str) -> Result<String, AllocError>
    ensures { IfOk result (λ path. string_bytes path ≡ folder_prefix prefix.now ++ rest.now) }
{
    let mut path = String::from_str(alloc, prefix)?;
    if lacks_slash(prefix) {
        path.push('/')?;
    }
    path.push_str(rest)?;
    Ok(path)
}

/// Whether a prefix is not empty and has no slash at its end.
fn lacks_slash(prefix: &str) -> bool
    ensures { result ≡ lacks_slash_of prefix.now }
{
    !prefix.is_empty() && !prefix.ends_with('/')
}
