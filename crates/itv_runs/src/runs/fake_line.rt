//! A command line in memory.
ghost use Rattle.std.specs.Prelude.{◌≤◌, IfOk, length};

use std::env::FillError;
use std::rt::Env;

/// A command line of these words. It has no variables.
#[derive(Drop)]
pub(crate) struct FakeLine<'a> {
    pub(crate) words: &'a [&'a [u8]],
}

impl Env for FakeLine<'_> {
    fn arg(&self, i: usize, buf: &mut [u8]) -> Result<usize, FillError> {
        match self.words.get(i) {
            Some(word) => filled(buf, word),
            None => Err(FillError::NotPresent),
        }
    }

    fn var(&self, _name: &str, _buf: &mut [u8]) -> Result<usize, FillError> {
        Err(FillError::NotPresent)
    }

    fn var_at(&self, _i: usize, _buf: &mut [u8]) -> Result<usize, FillError> {
        Err(FillError::NotPresent)
    }
}

fn filled(buf: &mut [u8], word: &[u8]) -> Result<usize, FillError>
    ensures { IfOk result (λ count. count ≤ length buf.old) }
{
    match buf.get_mut(..word.len()) {
        Some(front) => {
            front.copy_from_slice(word);
            Ok(word.len())
        }
        None => Err(FillError::TooLong),
    }
}
