//! What rows share: words, nested lists, and readers and writers that fail.
use std::alloc::{AllocError, Global};
use std::io;
use std::io::{ErrorKind, Read, Write};

/// The words of a line, with single spaces between them.
pub fn words(alloc: Global, line: &str) -> Result<Vec<String>, AllocError> {
    let mut words = Vec::new(alloc);
    for word in line.split(' ') {
        words.push(String::from_str(alloc, word)?)?;
    }
    Ok(words)
}

/// The text of `levels` lists, each inside the one before.
pub fn nested(alloc: Global, levels: usize) -> Result<String, AllocError> {
    let mut text = String::new(alloc);
    for _ in 0..levels {
        text.push('[')?;
    }
    for _ in 0..levels {
        text.push(']')?;
    }
    Ok(text)
}

/// A writer that takes at most `most` bytes per write. Once it is full, it returns an error or
/// takes nothing, once, and has room for more from then on.
#[derive(Drop)]
pub struct Pipe {
    /// What it took.
    pub taken: Vec<u8>,
    /// How many bytes it has room for.
    pub room: usize,
    /// How many bytes it takes at a write.
    pub most: usize,
    /// How it behaves once it is full.
    pub full: Full,
}

/// How a full pipe behaves.
#[derive(Clone, Copy, Debug)]
pub enum Full {
    /// It returns an error.
    AnswersAnError,
    /// It takes none of the bytes.
    TakesNothing,
}

impl Write for Pipe {
    fn write(&mut self, buf: &[u8]) -> io::Result<usize> {
        let left = self.room.saturating_sub(self.taken.len());
        if left == 0 {
            self.room = usize::MAX;
            return match self.full {
                Full::AnswersAnError => Err(io::Error::from(ErrorKind::BrokenPipe)),
                Full::TakesNothing => Ok(0),
            };
        }
        let count = buf.len().min(left).min(self.most);
        self.taken.extend_from_slice(&buf[..count])?;
        Ok(count)
    }

    fn flush(&mut self) -> io::Result<()> {
        Ok(())
    }
}

/// A reader that gives the same byte `bytes` times, one per read, and fails at read `fails_at`.
#[derive(Drop)]
pub struct Source {
    /// How many bytes it has.
    pub bytes: u64,
    /// How many reads there have been.
    pub reads: u64,
    /// The number of the read that fails, counted from 1.
    pub fails_at: Option<u64>,
}

impl Read for Source {
    fn read(&mut self, buf: &mut [u8]) -> io::Result<usize> {
        self.reads = self.reads.saturating_add(1);
        if self.fails_at == Some(self.reads) {
            return Err(io::Error::from(ErrorKind::Other));
        }
        if self.bytes == 0 || buf.is_empty() {
            return Ok(0);
        }
        self.bytes -= 1;
        buf[0] = b'a';
        Ok(1)
    }
}
