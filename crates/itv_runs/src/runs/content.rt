//! What opened files and folders in memory give.
ghost use Rattle.std.specs.Prelude.{◌≤◌, IfOk, length};

use crate::runs::node::{File, Folder};
use std::fs::{Metadata, OpenFile};
use std::io;
use std::io::{Read, Seek, SeekFrom, Write};

/// What an opened file has left: bytes, some blank ones, and then a fault, if there is one.
#[derive(Drop)]
pub(crate) struct Content<'a> {
    bytes: &'a [u8],
    blank: usize,
    fault: Option<io::ErrorKind>,
}

impl<'a> Content<'a> {
    /// Everything that a file has.
    pub(crate) fn of(file: &'a File) -> Content<'a> {
        Content {
            bytes: file.bytes.as_slice(),
            blank: file.blank,
            fault: file.fault,
        }
    }

    /// Nothing.
    pub(crate) fn empty() -> Content<'a> {
        Content {
            bytes: &[],
            blank: 0,
            fault: None,
        }
    }
}

impl Read for Content<'_> {
    fn read(&mut self, bytes: &mut [u8]) -> io::Result<usize> {
        if !self.bytes.is_empty() {
            return self.bytes.read(bytes);
        }
        let count = bytes.len().min(self.blank);
        match self.fault {
            Some(fault) if count == 0 => Err(io::Error::from(fault)),
            _ => {
                self.blank -= count;
                Ok(count)
            }
        }
    }
}

impl Write for Content<'_> {
    fn write(&mut self, _bytes: &[u8]) -> io::Result<usize> {
        Err(unsupported())
    }

    fn flush(&mut self) -> io::Result<()> {
        Err(unsupported())
    }
}

impl Seek for Content<'_> {
    fn seek(&mut self, _to: SeekFrom) -> io::Result<u64> {
        Err(unsupported())
    }
}

impl OpenFile for Content<'_> {
    fn metadata(&self) -> io::Result<Metadata> {
        Err(unsupported())
    }

    fn set_len(&self, _size: u64) -> io::Result<()> {
        Err(unsupported())
    }

    fn sync_all(&self) -> io::Result<()> {
        Err(unsupported())
    }

    fn sync_data(&self) -> io::Result<()> {
        Err(unsupported())
    }
}

/// The error for what these files do not support.
pub(crate) fn unsupported() -> io::Error {
    io::Error::from(io::ErrorKind::Unsupported)
}

/// What an opened folder has left. It gives one name per read.
#[derive(Drop)]
pub(crate) struct Names<'a> {
    names: &'a [u8],
    further: usize,
}

impl<'a> Names<'a> {
    /// All names of a folder.
    pub(crate) fn of(folder: &'a Folder) -> Names<'a> {
        Names {
            names: folder.names.as_slice(),
            further: folder.further,
        }
    }
}

impl Read for Names<'_> {
    fn read(&mut self, bytes: &mut [u8]) -> io::Result<usize> {
        if let Some(end) = self.names.iter().position(|byte| *byte == 0) {
            let (name, rest) = self.names.split_at(end + 1);
            self.names = rest;
            return put(bytes, name);
        }
        if self.further == 0 {
            return Ok(0);
        }
        self.further -= 1;
        put(bytes, numbered(self.further).as_slice())
    }
}

/// The name of a file by its number: seven digits, `.link`, and a zero byte.
fn numbered(number: usize) -> [u8; 13] {
    let digit = |place: usize| b'0' + (number / place % 10) as u8;
    [
        digit(1_000_000),
        digit(100_000),
        digit(10_000),
        digit(1000),
        digit(100),
        digit(10),
        digit(1),
        b'.',
        b'l',
        b'i',
        b'n',
        b'k',
        0,
    ]
}

fn put(bytes: &mut [u8], name: &[u8]) -> io::Result<usize>
    ensures { IfOk result (λ count. count ≤ length bytes.old) }
{
    match bytes.get_mut(..name.len()) {
        Some(front) => {
            front.copy_from_slice(name);
            Ok(name.len())
        }
        None => Err(unsupported()),
    }
}
