//! Files in memory as a disk.
ghost use Rattle.it_memory.specs.Files.{in_memory, seen_in};

use crate::memory::Memory;
use it_base::sequence::Sequence;
use it_base::text::Text;
use it_disk::{
    Disk, Fault, Kind, Links, Listed, MOST_BYTES, Shown, Tree, list, read_links, read_records,
};
use std::alloc::{Alloc, Global};

impl<'a> Alloc for Memory<'a> {
    type A = Global;

    fn alloc(&self) -> Global {
        self.allocator()
    }
}

impl<'a> Tree for Memory<'a> {
    ghost seen = { seen_in };

    fn read_whole(&self, path: &str) -> Result<Vec<u8>, Fault> {
        self.file(path)
    }

    fn names(&self, folder: &str) -> Result<Vec<String>, Fault> {
        self.names_at(folder)
    }

    fn look(&self, path: &str) -> Result<Option<Kind>, Fault> {
        Ok(Some(self.kind_at(path)?))
    }

    fn is_link(&self, _path: &str) -> Result<bool, Fault> {
        Ok(false)
    }
}

impl<'a> Disk for Memory<'a> {
    ghost holdings = { in_memory };

    type File = &'a [u8];

    fn open(&self, path: &str) -> Result<&'a [u8], Fault> {
        self.find(path)
    }

    fn file(&self, path: &str) -> Result<Vec<u8>, Fault> {
        let alloc = self.allocator();
        let found = self.find(path)?;
        if found.len() as u64 > MOST_BYTES {
            return Err(Fault::TooLarge {
                path: Shown::of(alloc, path)?,
                limit: MOST_BYTES,
            });
        }
        let mut bytes = Vec::with_capacity(alloc, found.len())?;
        bytes.extend_from_slice(found)?;
        Ok(bytes)
    }

    fn links(&self, folder: &str, depth: u8, limited: bool) -> Result<Links, Fault> {
        read_links(self, folder, depth, limited)
    }

    fn records(&self, folder: &str) -> Result<Sequence<(Text, Sequence<u8>)>, Fault> {
        Ok(Sequence::from(read_records(self, folder)?))
    }

    fn kind(&self, path: &str) -> Result<Kind, Fault> {
        self.kind_at(path)
    }

    fn entries(&self, folder: &str) -> Result<Sequence<Listed>, Fault> {
        Ok(Sequence::from(list(self, folder)?))
    }
}
