//! What is read of a folder of links or of records.
ghost use Rattle.std.specs.Prelude.{◌≡◌, ◌≤◌, ◌↔◌, All, IfOk, IfSome, IsTrue, map, option_map};
ghost use Rattle.std.specs.Prelude.{string_bytes, vec_len};
ghost use Rattle.std.specs.Path.{path_buf_bytes, path_join};
ghost use Rattle.it_disk.specs.Walks.{AreRead, IsRead, IsReadable};
ghost use Rattle.it_disk.specs.inside.Entries.{IsEntryIn, IsTold, shown};

use crate::fault::Fault;
use crate::folders::Kind;
use crate::shown::Shown;
use crate::tree::Tree;
use std::alloc::{AllocError, Global};
use std::path::{Path, PathBuf};

/// How many entries of one folder may be read.
const MOST_ENTRIES: usize = 1_000;

/// How the names of the files that are read end.
pub(crate) const ENDING: &str = ".link";

/// An entry of a folder that is read.
#[derive(Drop)]
pub(crate) struct Entry {
    pub(crate) name: String,
    pub(crate) path: PathBuf,
    pub(crate) kind: Kind,
}

/// What is read of a folder, which has these names, in their order. Folders are read where `depth`
/// is not 0.
///
/// # Errors
///
/// The fault of an entry whose kind the tree does not tell, and `TooMany` where more than 1,000
/// entries would be read.
pub(crate) fn entries_of<T: Tree + AllocGlobal>(
    tree: &T,
    folder: &str,
    names: Vec<String>,
    depth: u8,
) -> Result<Vec<Entry>, Fault>
    ensures read { IfOk result (λ entries. AreRead (T.seen tree.now) folder.now depth
        (map string_bytes names.items) (map shown entries.items)) }
    ensures each { IfOk result (λ entries. All (IsEntryIn folder.now depth) entries.items) }
    ensures within { IfOk result (λ entries. vec_len entries ≤ vec_len names) }
{
    let alloc = tree.alloc();
    let mut entries = Vec::new(alloc);
    for name in names {
        let Some(entry) = entry_under(tree, folder, name, depth)? else {
            continue;
        };
        if entries.len() == MOST_ENTRIES {
            return Err(Fault::TooMany {
                path: Shown::of(alloc, folder)?,
                limit: MOST_ENTRIES,
            });
        }
        entries.push(entry)?;
    }
    Ok(entries)
}

/// What is read under a name in a folder, or `None` where it is passed over: a folder too deep, a
/// file with another ending, or what is neither. A symbolic link counts as what it leads to.
fn entry_under<T: Tree + AllocGlobal>(
    tree: &T,
    folder: &str,
    name: String,
    depth: u8,
) -> Result<Option<Entry>, Fault>
    ensures read { IfOk result (λ found. IsRead (T.seen tree.now) folder.now depth
        (string_bytes name) (option_map (λ entry. entry.kind) found)) }
    ensures named { IfOk result (λ found. IfSome found
        (λ entry. string_bytes entry.name ≡ string_bytes name)) }
    ensures each { IfOk result (λ found. IfSome found (IsEntryIn folder.now depth)) }
{
    let readable = Readable::under(name.as_str(), depth);
    if !readable.file && !readable.folder {
        return Ok(None);
    }
    let path = path_in(tree.alloc(), folder, name.as_str())?;
    match tree.look(path.as_str())? {
        Some(kind) if readable.has(kind) => Ok(Some(Entry { name, path, kind })),
        _ => Ok(None),
    }
}

/// The path of what a folder holds under a name.
pub(crate) fn path_in(alloc: Global, folder: &str, name: &str) -> Result<PathBuf, AllocError>
    ensures { IfOk result (λ path. path_buf_bytes path ≡ path_join folder.now name.now) }
{
    Path::new(folder).join(alloc, name)
}

/// What can be read under a name.
#[derive(Clone, Copy)]
struct Readable {
    /// A file.
    file: bool,
    /// A folder.
    folder: bool,
}

impl Readable {
    /// What can be read under this name in a folder that is read down to `depth` levels below it.
    fn under(name: &str, depth: u8) -> Readable
        ensures { IsTold depth name.now result }
    {
        Readable {
            file: name.ends_with(ENDING),
            folder: depth > 0 && name.contains('.'),
        }
    }

    /// Whether it can be of this kind.
    fn has(self, kind: Kind) -> bool
        ensures { (depth : _) (name : _) → IsTold depth name self
            → IsTrue result ↔ IsReadable depth name kind }
    {
        match kind {
            Kind::File => self.file,
            Kind::Folder => self.folder,
        }
    }
}
