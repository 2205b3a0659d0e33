//! Names in JSON pointers (RFC 6901).
ghost use Rattle.std.specs.Prelude.{◌≡◌, ◌++◌, OnOk};
ghost use Rattle.std.specs.List.{flat_map};
ghost use Rattle.it_report.specs.Name.{name_form};
ghost use Rattle.it_check.specs.FindingPlace.{pointer_byte, token_form};

use crate::pointer_form::PointerForm;
use it_report::name::push_name;
use std::alloc::AllocError;

/// Appends a name as a part of a JSON pointer.
pub(crate) fn push_token(
    text: &mut Vec<u8>,
    form: PointerForm,
    name: &str,
) -> Result<(), AllocError>
    ensures { OnOk result (text.new.items ≡ text.old.items ++ token_form form name.now) }
{
    match form {
        PointerForm::Plain => push_escaped(text, name.as_bytes()),
        PointerForm::Shown => push_shown(text, name),
    }
}

fn push_shown(text: &mut Vec<u8>, name: &str) -> Result<(), AllocError>
    ensures { OnOk result
        (text.new.items ≡ text.old.items ++ name_form (flat_map pointer_byte name.now)) }
{
    let alloc = *text.allocator();
    let mut escaped = Vec::new(alloc);
    push_escaped(&mut escaped, name.as_bytes())?;
    push_name(text, escaped.as_slice())
}

fn push_escaped(text: &mut Vec<u8>, bytes: &[u8]) -> Result<(), AllocError>
    ensures { OnOk result (text.new.items ≡ text.old.items ++ flat_map pointer_byte bytes.now) }
{
    for byte in bytes {
        push_pointer_byte(text, *byte)?;
    }
    Ok(())
}

fn push_pointer_byte(text: &mut Vec<u8>, byte: u8) -> Result<(), AllocError>
    ensures { OnOk result (text.new.items ≡ text.old.items ++ pointer_byte byte) }
{
    if byte == b'~' {
        return text.extend_from_slice(b"~0");
    }
    if byte == b'/' {
        return text.extend_from_slice(b"~1");
    }
    text.push(byte)?;
    Ok(())
}
