//! Folders, listed whole.
ghost use Rattle.std.specs.Prelude.{IfOk, Some, map, string_bytes};
ghost use Rattle.std.specs.List.{AllZip};
ghost use Rattle.it_disk.specs.Walks.{AreListed, IsListed};

use crate::entries::path_in;
use crate::fault::Fault;
use crate::folders::Kind;
use crate::tree::Tree;
use it_base::text::Text;

/// An entry of a folder.
#[derive(Drop)]
pub struct Listed {
    /// Its name in the folder.
    pub name: Text,
    /// What it is.
    pub kind: Kind,
}

/// All entries of a folder, in the order of their names' bytes. A symbolic link to a file counts as
/// a file.
///
/// # Errors
///
/// Where the folder cannot be read, or an entry is neither a file nor a folder, such as a symbolic
/// link to a folder.
pub fn list<T: Tree + AllocGlobal>(tree: &T, folder: &str) -> Result<Vec<Listed>, Fault>
    ensures { IfOk result
        (λ entries. AreListed (T.seen tree.now) folder.now entries.items) }
{
    let names = tree.names(folder)?;
    entries_under(tree, folder, names)
}

/// The entries that a folder has under these names, in their order.
fn entries_under<T: Tree + AllocGlobal>(
    tree: &T,
    folder: &str,
    names: Vec<String>,
) -> Result<Vec<Listed>, Fault>
    ensures { IfOk result (λ entries. AllZip (IsListed (T.seen tree.now) folder.now)
        (map string_bytes names.items) entries.items) }
{
    let alloc = tree.alloc();
    let mut entries = Vec::new(alloc);
    for name in names {
        let path = path_in(alloc, folder, name.as_str())?;
        let kind = kind_in(tree, path.as_str())?;
        let name = Text::from(name);
        entries.push(Listed { name, kind })?;
    }
    Ok(entries)
}

/// What is at a path in a folder.
fn kind_in<T: Tree + AllocGlobal>(tree: &T, path: &str) -> Result<Kind, Fault>
    ensures { IfOk result (λ kind. (T.seen tree.now).kind path.now (Some kind)) }
{
    let kind = kind_at(tree, path)?;
    if kind == Kind::Folder && tree.is_link(path)? {
        return Err(Fault::unread(tree.alloc(), path, "it is a symbolic link to a folder")?);
    }
    Ok(kind)
}

/// What is at a path. A symbolic link counts as what it leads to.
///
/// # Errors
///
/// Where nothing is there, or neither a file nor a folder.
pub(crate) fn kind_at<T: Tree + AllocGlobal>(tree: &T, path: &str) -> Result<Kind, Fault>
    ensures { IfOk result (λ kind. (T.seen tree.now).kind path.now (Some kind)) }
{
    match tree.look(path)? {
        Some(kind) => Ok(kind),
        None => Err(Fault::unread(tree.alloc(), path, "it is neither a file nor a folder")?),
    }
}
