//! Folders of links, read as far as they count and no further.
ghost use Rattle.std.specs.Prelude.{◌≡◌, ◌+◌, ◌∷◌, ◌++◌, ◌≤◌, [], IfOk, OnOk, string_bytes};
ghost use Rattle.it_chain.specs.Contents.{empty, with_folder};
ghost use Rattle.it_limits.specs.Links.{AreFilesWithin};
ghost use Rattle.it_disk.specs.LinksCount.{IsWithinCount, count_of};
ghost use Rattle.it_disk.specs.LinksSize.{IsWithinSize, size_of};
ghost use Rattle.it_disk.specs.Reading.{AreLimited};
ghost use Rattle.it_disk.specs.Walks.{AreLinks, HaveLinks};
ghost use Rattle.it_disk.specs.inside.Entries.{IsEntryIn, shown};
ghost use Rattle.it_disk.specs.inside.SoFar.{IsCountedIn, IsWithin};

use crate::entries::{Entry, entries_of};
use crate::fault::Fault;
use crate::left_out::{LeftOut, too_many_in};
use crate::shown::Shown;
use crate::so_far::SoFar;
use crate::tree::Tree;
use it_base::sequence::Sequence;
use it_base::text::Text;
use it_chain::bundle::{Bundle, BundleFault, File};
use it_chain::held_file::HeldFile;
use std::alloc::{AllocError, Global};

/// What is read: a file, or a folder.
#[derive(Clone, Copy, PartialEq, Eq)]
pub enum Kind {
    /// The bytes of a file.
    File,
    /// The entries of a folder.
    Folder,
}

/// What is read of a folder of links.
#[derive(Drop)]
pub struct Links {
    /// The links.
    pub bundle: Bundle,
    /// The files that are left out, in the order in which they were found.
    pub left_out: Vec<LeftOut>,
    /// How much was read so far, with what was read before and what is left out.
    read: SoFar,
}

impl Links {
    /// No links, after so much was read.
    fn after(alloc: Global, read: SoFar) -> Links
        ensures nothing { result.bundle ≡ empty }
        ensures within { AreFilesWithin result.bundle }
        ensures no_bytes { size_of result.bundle ≡ 0 }
        ensures no_entries { count_of result.bundle ≡ 0 }
        ensures read { result.read ≡ read }
    {
        Links {
            bundle: Bundle::new(alloc),
            left_out: Vec::new(alloc),
            read,
        }
    }
}

/// The files of a folder whose names end in `.link`, and its folders whose names hold a full stop,
/// read in the same way, down to `depth` levels below it. Where signatures are `limited`, a file
/// whose envelope has too many is left out.
///
/// # Errors
///
/// The fault of a folder, an entry or a file that cannot be read; `TooMany` where more than 1,000
/// entries of a folder would be read; `TooManyInAll` where more than 100,000 files and folders
/// would be read in all; `TooMuch` where the files have more than 2 GiB in all; and `Unreadable` of
/// the folder with whose names, also of what is skipped, the folders have more than 1,000,000.
pub fn read_links<T: Tree + AllocGlobal>(
    tree: &T,
    folder: &str,
    depth: u8,
    limited: bool,
) -> Result<Links, Fault>
    ensures holds { IfOk result
        (λ links. AreLinks (T.seen tree.now) folder.now depth limited links.bundle) }
    ensures limited { IfOk result (λ links. AreLimited limited links.bundle) }
    ensures size { IfOk result (λ links. IsWithinSize links.bundle) }
    ensures count { IfOk result (λ links. IsWithinCount links.bundle) }
{
    let nothing = SoFar {
        bytes: 0,
        entries: 0,
        names: 0,
    };
    read_more(tree, folder, depth, limited, nothing)
}

/// `read_links`, after so much was read.
fn read_more<T: Tree + AllocGlobal>(
    tree: &T,
    folder: &str,
    depth: u8,
    limited: bool,
    read: SoFar,
) -> Result<Links, Fault>
    requires { IsWithin read }
    ensures holds { IfOk result
        (λ links. AreLinks (T.seen tree.now) folder.now depth limited links.bundle) }
    ensures limited { IfOk result (λ links. AreLimited limited links.bundle) }
    ensures counted { IfOk result (λ links. IsCountedIn links.read read links.bundle) }
    ensures listed { IfOk result
        (λ links. read.names + count_of links.bundle ≤ links.read.names) }
    ensures within { IfOk result (λ links. IsWithin links.read) }
{
    let names = tree.names(folder)?;
    let listed = read.with_names(tree.alloc(), folder, names.len())?;
    let mut links = Links::after(tree.alloc(), listed);
    let entries = entries_of(tree, folder, names, depth)?;
    for entry in entries {
        match entry.kind {
            Kind::File => add_file(tree, &mut links, entry, limited)?,
            Kind::Folder => {
                let path = entry.path.as_str();
                let so_far = links.read.with(tree.alloc(), path, &[])?;
                let inner = read_more(tree, path, depth - 1, limited, so_far)?;
                add_folder(tree.alloc(), &mut links, entry, inner)?;
            }
        }
    }
    Ok(links)
}

/// Reads a file, and adds it to the links or leaves it out.
fn add_file<T: Tree + AllocGlobal>(
    tree: &T,
    links: &mut Links,
    entry: Entry,
    limited: bool,
) -> Result<(), Fault>
    ensures holds { OnOk result ((folder : _) (depth : _) (before : _)
        → IsEntryIn folder depth entry → entry.kind ≡ Kind.File
        → HaveLinks (T.seen tree.now) limited depth folder before links.old.bundle
        → HaveLinks (T.seen tree.now) limited depth folder (before ++ shown entry ∷ [])
        links.new.bundle) }
    ensures limited { OnOk result (AreLimited limited links.old.bundle
        → AreLimited limited links.new.bundle) }
    ensures counted { OnOk result ((before : SoFar)
        → IsCountedIn links.old.read before links.old.bundle
        → IsCountedIn links.new.read before links.new.bundle) }
    ensures count { OnOk result (count_of links.new.bundle ≤ count_of links.old.bundle + 1) }
    ensures names { OnOk result (links.new.read.names ≡ links.old.read.names) }
    ensures within { OnOk result (IsWithin links.old.read → IsWithin links.new.read) }
{
    let alloc = tree.alloc();
    let bytes = Sequence::from(tree.read_whole(entry.path.as_str())?);
    links.read = links
        .read
        .with(alloc, entry.path.as_str(), bytes.as_slice())?;
    let name = Text::from(entry.name);
    let file = HeldFile::read(alloc, File { name, bytes })?;
    match too_many_in(&file, limited) {
        Some(signatures) => {
            let path = Shown::of(alloc, entry.path.as_str())?;
            links.left_out.push(LeftOut::File { path, signatures })?;
        }
        None => links.bundle.add_read(file)?,
    }
    Ok(())
}

/// Adds the links of a folder, and what is left out of it.
fn add_folder(alloc: Global, links: &mut Links, entry: Entry, inner: Links) -> Result<(), Fault>
    ensures added { OnOk result (links.new.bundle
        ≡ with_folder (string_bytes entry.name) inner.bundle links.old.bundle) }
    ensures limited { OnOk result ((limited : _) → AreLimited limited links.old.bundle
        → AreLimited limited inner.bundle → AreLimited limited links.new.bundle) }
    ensures size { OnOk result
        (size_of links.new.bundle ≤ size_of links.old.bundle + size_of inner.bundle) }
    ensures count { OnOk result
        (count_of links.new.bundle ≤ count_of links.old.bundle + 1 + count_of inner.bundle) }
    ensures read { OnOk result (links.new.read ≡ inner.read) }
{
    let Links {
        bundle,
        mut left_out,
        read,
    } = inner;
    links.read = read;
    links.left_out.append(&mut left_out)?;
    match links.bundle.add_dir(entry.name, bundle) {
        Ok(()) => Ok(()),
        Err(BundleFault::NameTaken(_)) => {
            let path = entry.path.as_str();
            Err(Fault::unread(alloc, path, "its name stands twice")?)
        }
        Err(BundleFault::OutOfMemory) => Err(Fault::from(AllocError)),
    }
}
