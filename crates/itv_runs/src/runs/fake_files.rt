//! Files and folders in memory.
use crate::runs::content::{Content, Names, unsupported};
use crate::runs::node::{Node, Placed};
use std::alloc::Allocator;
use std::fs::{Metadata, OpenOptions};
use std::io;
use std::rt::Files;

/// Files in memory. A path at which nothing is placed is an empty file, or missing if `gone` is in
/// it. If several are placed at one path, the last of them is there.
#[derive(Clone, Copy)]
pub(crate) struct FakeFiles<'a> {
    pub(crate) files: &'a [Placed],
}

impl<'a> FakeFiles<'a> {
    /// What is placed at a path, or `None` for an empty file.
    fn node(&self, path: &str) -> io::Result<Option<&'a Node>> {
        let path = path.strip_suffix("/").unwrap_or(path);
        for placed in self.files.iter().rev() {
            if placed.path.as_str() == path {
                return Ok(Some(&placed.node));
            }
        }
        if path.contains("gone") {
            return Err(missing());
        }
        Ok(None)
    }
}

fn missing() -> io::Error {
    io::Error::from(io::ErrorKind::NotFound)
}

impl<'a> Files for FakeFiles<'a> {
    type File = Content<'a>;

    type Dir = Names<'a>;

    fn open_file(&self, _how: &OpenOptions, path: &str) -> io::Result<Content<'a>> {
        match self.node(path)? {
            Some(Node::File(file)) => Ok(Content::of(file)),
            Some(Node::Folder(_)) => Err(unsupported()),
            None => Ok(Content::empty()),
        }
    }

    fn open_dir(&self, path: &str) -> io::Result<Names<'a>> {
        match self.node(path)? {
            Some(Node::Folder(folder)) => Ok(Names::of(folder)),
            _ => Err(unsupported()),
        }
    }

    fn metadata(&self, path: &str) -> io::Result<Metadata> {
        match self.node(path)? {
            Some(Node::File(_)) | None => Ok(Metadata::of_file(0)),
            Some(Node::Folder(_)) => Ok(Metadata::of_dir()),
        }
    }

    fn symlink_metadata(&self, path: &str) -> io::Result<Metadata> {
        match self.node(path)? {
            Some(Node::Folder(_)) => Ok(Metadata::of_dir()),
            _ => Err(unsupported()),
        }
    }

    fn copy(&self, _from: &str, _to: &str) -> io::Result<u64> {
        Err(unsupported())
    }

    fn rename(&self, _from: &str, _to: &str) -> io::Result<()> {
        Err(unsupported())
    }

    fn remove_file(&self, _path: &str) -> io::Result<()> {
        Err(unsupported())
    }

    fn create_dir(&self, _path: &str) -> io::Result<()> {
        Err(unsupported())
    }

    fn remove_dir(&self, _path: &str) -> io::Result<()> {
        Err(unsupported())
    }

    fn remove_dir_all<B: Allocator>(&self, _alloc: B, _path: &str) -> io::Result<()> {
        Err(unsupported())
    }
}
