//! A value that may be a text.
ghost use Rattle.std.specs.Prelude.{IfOk};
ghost use Rattle.it_skim.specs.inside.Reading.{IsValueRead};

use json::{Error, Reader, Value};
use std::alloc::{AllocError, Global};

/// How deep the members of a document nest at most.
pub(crate) const LEVELS_BELOW: usize = 126;

/// Whether the value that comes is the text; `None` where none comes.
pub(crate) fn is_text(
    alloc: Global,
    reader: &mut Reader<'_>,
    wanted: &str,
) -> Result<Option<bool>, AllocError>
    ensures { IfOk result (IsValueRead reader.old reader.new wanted.now) }
{
    match Value::read(alloc, reader, LEVELS_BELOW) {
        Ok(value) => Ok(Some(value.as_str() == Some(wanted))),
        Err(Error::OutOfMemory) => Err(AllocError),
        Err(Error::Invalid | Error::TooLong | Error::DuplicateKey) => Ok(None),
    }
}
