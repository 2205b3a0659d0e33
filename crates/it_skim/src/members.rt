//! The members of an object, one after another.
ghost use Rattle.std.specs.Prelude.{IfOk};
ghost use Rattle.it_skim.specs.inside.Reading.{AreRead};

use crate::text_value::{LEVELS_BELOW, is_text};
use json::Reader;
use std::alloc::{AllocError, Global};

/// Whether the last of the members of this name is the text; `None` where what comes are no members
/// up to the end of an object.
pub(crate) fn members_have(
    alloc: Global,
    reader: &mut Reader<'_>,
    name: &str,
    wanted: &str,
) -> Result<Option<bool>, AllocError>
    ensures { IfOk result (AreRead reader.old reader.new name.now wanted.now) }
{
    let mut has = false;
    loop {
        let Ok(next) = reader.next_key() else {
            return Ok(None);
        };
        let Some(key) = next else {
            return Ok(Some(has));
        };
        if key == name {
            let Some(is) = is_text(alloc, reader, wanted)? else {
                return Ok(None);
            };
            has = is;
        } else {
            let Ok(_) = reader.skip_value(LEVELS_BELOW) else {
                return Ok(None);
            };
        }
    }
}
