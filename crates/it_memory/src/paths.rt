//! The paths of files, in the order of their bytes.
ghost use Rattle.std.specs.Prelude.{◌≡◌, ◌++◌, IfOk, codes, map, string_bytes};
ghost use Rattle.it_rules.specs.Ranges.{AreInOrder};
ghost use Rattle.it_sorted_paths.specs.Order.{IsNext};

use crate::file::File;
use it_disk::Fault;
use it_sorted_paths::is_next;
use std::alloc::{AllocError, Global};

/// The paths of sorted files.
///
/// # Errors
///
/// The fault of a path that two files have, or that has an empty part.
pub(crate) fn paths_of<'a>(alloc: Global, files: &[File<'a>]) -> Result<Vec<&'a str>, Fault>
    ensures in_order { IfOk result (λ paths. AreInOrder paths.items) }
    ensures paths { IfOk result (λ paths.
        map (λ path. path.now) paths.items ≡ map (λ file. file.path.now) files.now) }
{
    let mut paths: Vec<&'a str> = Vec::with_capacity(alloc, files.len())?;
    for file in files {
        let path = next_path(alloc, paths.as_slice(), file)?;
        paths.push(path)?;
    }
    Ok(paths)
}

/// The path of a file, which comes after those of the files before it.
fn next_path<'a>(alloc: Global, paths: &[&str], file: &File<'a>) -> Result<&'a str, Fault>
    ensures same { IfOk result (λ path. path.now ≡ file.now.path.now) }
    ensures next { IfOk result (λ path. IsNext paths.now path.now) }
{
    let path = file.path;
    if has_empty_part(path) {
        return Err(Fault::unread(alloc, path, "a part of this path is empty")?);
    }
    if !is_next(paths, path) {
        return Err(Fault::unread(alloc, path, "two files are given under this path")?);
    }
    Ok(path)
}

/// Whether a path has a part without a byte.
fn has_empty_part(path: &str) -> bool {
    path.split('/').any(str::is_empty)
}

/// What the paths below a folder begin with: its own path and a slash.
///
/// # Errors
///
/// `AllocError` where memory was refused.
pub(crate) fn front_of(alloc: Global, folder: &str) -> Result<String, AllocError>
    ensures { IfOk result (λ front. string_bytes front ≡ folder.now ++ codes "/") }
{
    let mut front = String::from_str(alloc, folder)?;
    front.push_str("/")?;
    Ok(front)
}
