//! Folders of the records of inspections.
ghost use Rattle.std.specs.Prelude.{◌≡◌, ◌++◌, All, IfOk, codes, map};
ghost use Rattle.std.specs.List.{AllZip};
ghost use Rattle.it_disk.specs.Walks.{AreRecords, IsRecord};
ghost use Rattle.it_disk.specs.inside.Entries.{IsEntryIn, shown};

use crate::entries::{ENDING, Entry, entries_of};
use crate::fault::Fault;
use crate::tree::Tree;
use it_base::sequence::Sequence;
use it_base::text::Text;
use std::alloc::{AllocError, Global};

/// The records of inspections in a folder: its files whose names end in `.link`, each under its
/// name without that ending.
///
/// # Errors
///
/// Those of `read_links`.
pub fn read_records<T: Tree + AllocGlobal>(
    tree: &T,
    folder: &str,
) -> Result<Vec<(Text, Sequence<u8>)>, Fault>
    ensures { IfOk result
        (λ records. AreRecords (T.seen tree.now) folder.now records.items) }
{
    let names = tree.names(folder)?;
    let entries = entries_of(tree, folder, names, 0)?;
    records_at(tree, folder, entries)
}

/// The records that these entries of a folder are.
fn records_at<T: Tree + AllocGlobal>(
    tree: &T,
    folder: &str,
    entries: Vec<Entry>,
) -> Result<Vec<(Text, Sequence<u8>)>, Fault>
    requires { All (IsEntryIn folder.now 0) entries.items }
    ensures { IfOk result (λ records. AllZip (IsRecord (T.seen tree.now) folder.now)
        (map shown entries.items) records.items) }
{
    let alloc = tree.alloc();
    let mut records = Vec::new(alloc);
    for entry in entries {
        let inspection = inspection_of(alloc, entry.name.as_str())?;
        let bytes = tree.read_whole(entry.path.as_str())?;
        let record = (inspection, Sequence::from(bytes));
        records.push(record)?;
    }
    Ok(records)
}

/// The name of the inspection whose record has this name.
fn inspection_of(alloc: Global, name: &str) -> Result<Text, AllocError>
    ensures { IfOk result (λ inspection. (front : _) → name.now ≡ front ++ codes ".link"
        → name.now ≡ inspection ++ codes ".link") }
{
    let inspection = name.strip_suffix(ENDING).unwrap_or(name);
    Text::copy(alloc, inspection)
}
