//! The files at or below a path.
ghost use Rattle.std.specs.Prelude.{◌≡◌, ◌∷◌, ◌++◌, [], IfOk, OnOk, map, string_bytes};
ghost use Rattle.it_files_below.specs.FilesBelow.{AreBelow, AreFilesAt, AreFilesAtEach, HoldsFiles};
ghost use Rattle.it_files_below.specs.FilesBelow.{beginning_of as beginning_of_paths};
ghost use Rattle.it_files_below.specs.FilesBelow.{path_in as joined};

use it_base::text::Text;
use it_disk::{Disk, Fault, Kind, Shown};
use it_sorted_paths::put_in_order;
use std::alloc::{AllocError, Global};
use std::path::Path;

/// How many folders may lie one inside the other below the one that a path names.
const MOST_LEVELS: u8 = 32;

/// How many files may lie below the folder that a path names.
const MOST_FILES: usize = 1_000_000;

/// The paths of all files at or below each path, path by path.
///
/// # Errors
///
/// Where a path is neither a file nor a folder, a folder cannot be read or has too much below it,
/// or something below it is neither a file nor a folder.
pub fn files_at_each<R: Disk + AllocGlobal>(rt: &R, paths: &[Text]) -> Result<Vec<Text>, Fault>
    ensures { IfOk result (λ files. AreFilesAtEach (R.holdings rt.now) paths.now files.items) }
{
    let mut files = Vec::new(rt.alloc());
    for path in paths {
        add_texts(&mut files, files_at(rt, path.as_str())?)?;
    }
    Ok(files)
}

fn add_texts(texts: &mut Vec<Text>, more: Vec<String>) -> Result<(), AllocError>
    ensures { OnOk result (texts.new.items ≡ texts.old.items ++ map string_bytes more.items) }
{
    for text in more {
        texts.push(Text::from(text))?;
    }
    Ok(())
}

/// The paths of the files at or below a path: of the file itself, or of all files below the folder.
fn files_at<R: Disk + AllocGlobal>(rt: &R, path: &str) -> Result<Vec<String>, Fault>
    ensures { IfOk result
        (λ files. AreFilesAt (R.holdings rt.now) path.now (map string_bytes files.items)) }
{
    match rt.kind(path)? {
        Kind::File => Ok(vec![in rt.alloc(); String::from_str(rt.alloc(), path)?]?),
        Kind::Folder => files_below(rt, path),
    }
}

/// The paths of all files below a folder, each once, in the order of their bytes.
fn files_below<R: Disk + AllocGlobal>(rt: &R, folder: &str) -> Result<Vec<String>, Fault>
    ensures { IfOk result
        (λ files. AreBelow (R.holdings rt.now) folder.now (map string_bytes files.items)) }
{
    let mut files = Vec::new(rt.alloc());
    find_files(rt, folder, MOST_LEVELS, &mut files)?;
    put_in_order(&mut files);
    Ok(files)
}

/// Adds the paths of all files below a folder, in the order in which they are found.
fn find_files<R: Disk + AllocGlobal>(
    rt: &R,
    folder: &str,
    levels: u8,
    files: &mut Vec<String>,
) -> Result<(), Fault>
    ensures { IfOk result (λ _. (found : _) × HoldsFiles (R.holdings rt.now) folder.now found
        × (map string_bytes files.new.items ≡ map string_bytes files.old.items ++ found)) }
{
    let entries = rt.entries(folder)?;
    for entry in entries.as_slice() {
        let path = path_in(rt.alloc(), folder, entry.name.as_str())?;
        match entry.kind {
            Kind::File => add_file(rt.alloc(), files, path)?,
            Kind::Folder => {
                let Some(below) = levels.checked_sub(1) else {
                    return Err(too_deep(rt.alloc(), path.as_str())?);
                };
                find_files(rt, path.as_str(), below, files)?;
            }
        }
    }
    Ok(())
}

/// The fault of a folder that lies too deep.
fn too_deep(alloc: Global, path: &str) -> Result<Fault, AllocError> {
    Ok(Fault::TooDeep {
        path: Shown::of(alloc, path)?,
        limit: MOST_LEVELS,
    })
}

/// Adds the path of a file, unless there are already as many as allowed.
fn add_file(alloc: Global, files: &mut Vec<String>, path: String) -> Result<(), Fault>
    ensures { OnOk result (map string_bytes files.new.items
        ≡ map string_bytes files.old.items ++ string_bytes path ∷ []) }
{
    if files.len() >= MOST_FILES {
        return Err(Fault::TooManyFiles {
            path: Shown::of(alloc, path.as_str())?,
            limit: MOST_FILES,
        });
    }
    files.push(path)?;
    Ok(())
}

/// The path of what a folder holds under a name.
fn path_in(alloc: Global, folder: &str, name: &str) -> Result<String, AllocError>
    ensures { IfOk result (λ path. string_bytes path ≡ joined folder.now name.now) }
{
    let path = Path::new(beginning_of(folder)).join(alloc, name)?;
    Ok(path.into_string())
}

/// What the paths of what a folder holds begin with: nothing for the folder in which the program
/// runs, so that a list of its files names them as a delivery does.
fn beginning_of(folder: &str) -> &str
    ensures { result.now ≡ beginning_of_paths folder.now }
{
    if folder == "." || folder == "./" {
        ""
    } else {
        folder
    }
}
