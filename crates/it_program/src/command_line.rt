//! The words of the command line, as the system gives them.
use it_disk::Fault;
use std::env::FillError;
use std::rt::Env;
use std::{env, io};

/// The words of the command line, the program's name first.
///
/// # Errors
///
/// `Fault::BadProgramName` or `Fault::BadWord` where a word is not UTF-8, `Fault::Words` where the
/// system does not give the words, and `Fault::Run` where memory was refused.
pub fn words<R: Env + AllocGlobal>(rt: &R) -> Result<Vec<String>, Fault> {
    match env::args(rt) {
        Ok(words) => Ok(words.collect(rt.alloc())?),
        Err(error) => Err(fault_of(rt, &error)),
    }
}

/// The fault of words that the system did not give as texts.
fn fault_of<R: Env + AllocGlobal>(rt: &R, error: &io::Error) -> Fault {
    match first_bad_word(rt) {
        Ok(Some(0)) => Fault::BadProgramName,
        Ok(Some(place)) => Fault::BadWord(place),
        Ok(None) => Fault::of_words(rt.alloc(), error),
        Err(error) => Fault::of_words(rt.alloc(), &error),
    }
}

/// The place of the first word that is not UTF-8, where the program's name has place 0.
fn first_bad_word<R: Env + AllocGlobal>(rt: &R) -> io::Result<Option<usize>> {
    for place in 0..usize::MAX {
        match env::args(&(OneWord { rt, place }, rt.alloc())) {
            Ok(words) if words.len() == 0 => break,
            Ok(_) => {}
            Err(error) if error.kind() == io::ErrorKind::InvalidData => return Ok(Some(place)),
            Err(error) => return Err(error),
        }
    }
    Ok(None)
}

/// The word at one place of a command line, as if it were the only one.
#[derive(Drop)]
struct OneWord<'a, R> {
    rt: &'a R,
    place: usize,
}

impl<R: Env> Env for OneWord<'_, R> {
    fn arg(&self, i: usize, buf: &mut [u8]) -> Result<usize, FillError> {
        if i == 0 {
            self.rt.arg(self.place, buf)
        } else {
            Err(FillError::NotPresent)
        }
    }

    fn var(&self, name: &str, buf: &mut [u8]) -> Result<usize, FillError> {
        self.rt.var(name, buf)
    }

    fn var_at(&self, i: usize, buf: &mut [u8]) -> Result<usize, FillError> {
        self.rt.var_at(i, buf)
    }
}
