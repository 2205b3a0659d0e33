//! The files and folders that a layout is checked against.
ghost use Rattle.std.specs.Prelude.{◌≡◌, OnOk, OnErr, IfErr, IsSome, None};
ghost use Rattle.std.specs.Prelude.{option_map, string_bytes};

use crate::held_file::HeldFile;
use it_base::sequence::Sequence;
use it_base::text::Text;
use std::alloc::{AllocError, Global};
use std::collections::BTreeMap;
use std::marker::Model;

/// A file of a bundle: its name inside its folder, and its bytes.
#[derive(Drop)]
pub struct File {
    /// The name, without a folder prefix.
    pub name: Text,
    /// All of the file's bytes.
    pub bytes: Sequence<u8>,
}

/// Files in the order they were added, whose names may repeat, and folders with distinct names,
/// each itself a bundle. A contract sees both, the folders in the order of their names' bytes.
#[derive(Drop)]
pub struct Bundle {
    files: Vec<HeldFile>,
    folders: BTreeMap<String, Bundle>,
}

/// Why a folder was not added.
#[derive(Drop)]
pub enum BundleFault {
    /// A folder of that name exists. The folder that was to be added is returned unchanged.
    NameTaken(Bundle),
    /// Memory was refused.
    OutOfMemory,
}

impl Model for Bundle {
    ghost use Rattle.it_chain.specs.Contents.{Contents};

    ghost Value = { Contents };

    ghost use Rattle.it_chain.specs.BundleCode.{coded_contents};

    ghost coded = { coded_contents };

    ghost use Rattle.it_chain.specs.BundleView.{contents_view, height, most_le-folders_height};

    ghost view = { λ b. contents_view b.files.items b.folders.entries };

    ghost size = { height };

    ghost use Rattle.std.proofs.Common.{arith};

    ghost size_decreases = { λ b h. omega (arith, most_le-folders_height b.folders.entries) };
}

impl Bundle {
    ghost use Rattle.it_chain.specs.Contents.{Contents, empty, files_of, with_file, with_folder};
    ghost use Rattle.it_chain.specs.Contents.{folder_at};

    /// A bundle without files or folders. Takes no memory.
    pub fn new(alloc: Global) -> Bundle
        ensures { result ≡ empty }
    {
        Bundle {
            files: Vec::new(alloc),
            folders: BTreeMap::new(alloc),
        }
    }

    /// Adds a file after the existing ones, even if one of them has the same name. Its bytes are
    /// read as an envelope here, and nowhere again.
    ///
    /// # Errors
    ///
    /// `AllocError` where memory was refused; the bundle is then unchanged.
    pub fn add_file(&mut self, name: String, bytes: Vec<u8>) -> Result<(), AllocError>
        ensures ok { OnOk result (self.new
            ≡ with_file (record { name = string_bytes name; bytes = bytes.items }) self.old) }
        ensures err { OnErr result (self.new ≡ self.old) }
    {
        let alloc = *self.files.allocator();
        let file = File {
            name: Text::from(name),
            bytes: Sequence::from(bytes),
        };
        self.add_read(HeldFile::read(alloc, file)?)
    }

    /// Adds a file that was read, as `add_file` does.
    ///
    /// # Errors
    ///
    /// `AllocError` where memory was refused; the bundle is then unchanged.
    pub fn add_read(&mut self, file: HeldFile) -> Result<(), AllocError>
        ensures ok { OnOk result (self.new ≡ with_file file self.old) }
        ensures err { OnErr result (self.new ≡ self.old) }
    {
        self.files.push(file)?;
        Ok(())
    }

    /// Adds a folder under a name that no other folder of this bundle has.
    ///
    /// # Errors
    ///
    /// `NameTaken` exactly where a folder of that name exists: it hands `folder` back.
    /// `OutOfMemory` where memory was refused. Either way the bundle is unchanged.
    pub fn add_dir(&mut self, name: String, folder: Bundle) -> Result<(), BundleFault>
        ensures ok { OnOk result (self.new ≡ with_folder (string_bytes name) folder self.old) }
        ensures free { OnOk result (folder_at (string_bytes name) self.old ≡ None) }
        ensures err { OnErr result (self.new ≡ self.old) }
        ensures taken { IsSome (folder_at (string_bytes name) self.old)
            → IfErr result (λ e. e ≡ BundleFault.NameTaken folder) }
        ensures only_taken { IfErr result (λ e. (back : Contents) → e ≡ BundleFault.NameTaken back
            → IsSome (folder_at (string_bytes name) self.old)) }
    {
        if self.folders.contains_key(&name) {
            return Err(BundleFault::NameTaken(folder));
        }
        match self.folders.insert(name, folder) {
            Ok(_) => Ok(()),
            Err(_) => Err(BundleFault::OutOfMemory),
        }
    }

    /// The files, in the order they were added. Takes no memory.
    pub fn files(&self) -> &[HeldFile]
        ensures { result.now ≡ files_of self.now }
    {
        &self.files
    }

    /// The folder of this name. Takes no memory.
    pub fn dir(&self, name: &str) -> Option<&Bundle>
        ensures { option_map (λ folder. folder.now) result ≡ folder_at name.now self.now }
    {
        self.folders.get(name)
    }
}
