//! How the line of a note begins, and the line on a whole list.
ghost use Rattle.std.specs.Prelude.{◌≡◌, ◌++◌, OnOk};
ghost use Rattle.it_root_notes.specs.Front.{front_text, none_used_text, place_text};

use std::alloc::AllocError;

/// Appends that what is at a place of a list of the trusted root is not used.
pub(crate) fn push_front(text: &mut Vec<u8>, list: &str, place: usize) -> Result<(), AllocError>
    ensures { OnOk result (text.new.items ≡ text.old.items ++ front_text list.now place) }
{
    text.extend_from_slice(b"the trusted root's ")?;
    text.extend_from_slice(list.as_bytes())?;
    push_place(text, place)?;
    Ok(())
}

/// Appends the place behind the name of a list, and that what is there is not used.
fn push_place(text: &mut Vec<u8>, place: usize) -> Result<(), AllocError>
    ensures { OnOk result (text.new.items ≡ text.old.items ++ place_text place) }
{
    let alloc = *text.allocator();
    let words = format!(in alloc; " {place} is not used: ")?;
    text.extend_from_slice(words.as_bytes())
}

/// Appends that nothing of a list of the trusted root is used.
pub(crate) fn push_none_used(text: &mut Vec<u8>, list: &str) -> Result<(), AllocError>
    ensures { OnOk result (text.new.items ≡ text.old.items ++ none_used_text list.now) }
{
    let alloc = *text.allocator();
    let line = format!(in alloc;
        "the trusted root has no {list} that are used, so no bundle vouches for anybody\n"
    )?;
    text.extend_from_slice(line.as_bytes())
}
