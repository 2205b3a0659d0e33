//! Readers and writers that remember why the system failed them, and how much went out.
ghost use Rattle.std.specs.Prelude.{◌≡◌, None};

use std::io;
use std::io::{Read, Write};

/// A reader or a writer, with the last error that it returned and how much it took.
#[derive(Drop)]
pub struct Remembering<T> {
    /// The reader or the writer.
    pub inner: T,
    /// The last error that it returned, if any.
    pub error: Option<io::Error>,
    /// How many bytes the writer took.
    pub written: u64,
}

impl<T> Remembering<T> {
    /// It has returned no error and taken no bytes yet.
    pub fn new(inner: T) -> Remembering<T>
        ensures inner { result.inner ≡ inner }
        ensures error { result.error ≡ None }
        ensures written { result.written ≡ 0 }
    {
        Remembering {
            inner,
            error: None,
            written: 0,
        }
    }
}

impl<R: Read> Read for Remembering<R> {
    ghost remaining = { λ reader. R.remaining reader.inner };

    fn read(&mut self, bytes: &mut [u8]) -> io::Result<usize> {
        match self.inner.read(bytes) {
            Ok(count) => Ok(count),
            Err(error) => {
                self.error = Some(error);
                Err(error)
            }
        }
    }
}

impl<W: Write> Write for Remembering<W> {
    ghost contents = { λ writer. W.contents writer.inner };

    fn write(&mut self, bytes: &[u8]) -> io::Result<usize> {
        match self.inner.write(bytes) {
            Ok(count) => {
                self.written = self.written.saturating_add(count as u64);
                Ok(count)
            }
            Err(error) => {
                self.error = Some(error);
                Err(error)
            }
        }
    }

    fn flush(&mut self) -> io::Result<()> {
        self.inner.flush()
    }
}
