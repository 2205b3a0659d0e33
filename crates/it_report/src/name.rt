//! How a report writes a name, and how a note does.
ghost use Rattle.std.specs.Prelude.{◌≡◌, ◌++◌, ◌∷◌, ◌<◌, ◌≤◌, [], OnOk, length, take};
ghost use Rattle.std.specs.List.{flat_map};
ghost use Rattle.it_report.specs.Name.{
  byte_form,
  cut_form,
  digit_form,
  inner_byte_form,
  inner_form,
  is_plain,
  name_form,
};

use std::alloc::AllocError;

/// Appends a name, an id or a path in the form of a report: each byte outside 0x21 to 0x7e, and the
/// backslash, as `\x` and two lower-case hexadecimal digits; an empty one as `\e`.
///
/// # Errors
///
/// `AllocError` where memory was refused; a part of the form may have been appended then.
#[tactic(auto, unfolding(crate::specs::Name::name_form))]
pub fn push_name(text: &mut Vec<u8>, name: &[u8]) -> Result<(), AllocError>
    ensures { OnOk result (text.new.items ≡ text.old.items ++ name_form name.now) }
{
    if name.is_empty() {
        text.extend_from_slice(b"\\e")?;
        return Ok(());
    }
    push_bytes(text, name)
}

/// The most bytes of a name that a note writes.
const MOST_BYTES: usize = 200;

/// Appends a name, an id or a path in the form of a note: as `push_name` does where it has at most
/// 200 bytes, otherwise its first 200 so, and `..`.
///
/// # Errors
///
/// `AllocError` where memory was refused; a part of the form may have been appended then.
#[tactic(auto, unfolding(crate::specs::Name::cut_form))]
pub fn push_cut_name(text: &mut Vec<u8>, name: &[u8]) -> Result<(), AllocError>
    ensures { OnOk result (text.new.items ≡ text.old.items ++ cut_form name.now) }
{
    if name.len() <= MOST_BYTES {
        return push_name(text, name);
    }
    push_name(text, front_of(name))?;
    text.extend_from_slice(b"..")?;
    Ok(())
}

/// What a note writes of a long name.
fn front_of(name: &[u8]) -> &[u8]
    requires { 200 ≤ length name.now }
    ensures { result.now ≡ take 200 name.now }
{
    &name[..MOST_BYTES]
}

fn push_bytes(text: &mut Vec<u8>, bytes: &[u8]) -> Result<(), AllocError>
    ensures { OnOk result (text.new.items ≡ text.old.items ++ flat_map byte_form bytes.now) }
{
    for byte in bytes {
        push_byte(text, *byte)?;
    }
    Ok(())
}

/// Appends a name that `/` separates from others: as `push_name` does, but `/` as `\x2f`.
///
/// # Errors
///
/// `AllocError` where memory was refused; a part of the form may have been appended then.
#[tactic(auto, unfolding(crate::specs::Name::inner_form, crate::specs::Name::name_form))]
pub(crate) fn push_inner_name(text: &mut Vec<u8>, name: &[u8]) -> Result<(), AllocError>
    ensures { OnOk result (text.new.items ≡ text.old.items ++ inner_form name.now) }
{
    if name.is_empty() {
        return push_name(text, name);
    }
    push_inner_bytes(text, name)
}

fn push_inner_bytes(text: &mut Vec<u8>, bytes: &[u8]) -> Result<(), AllocError>
    ensures { OnOk result (text.new.items ≡ text.old.items ++ flat_map inner_byte_form bytes.now) }
{
    for byte in bytes {
        push_inner_byte(text, *byte)?;
    }
    Ok(())
}

fn push_inner_byte(text: &mut Vec<u8>, byte: u8) -> Result<(), AllocError>
    ensures { OnOk result (text.new.items ≡ text.old.items ++ inner_byte_form byte) }
{
    if byte == b'/' {
        text.extend_from_slice(b"\\x2f")?;
        return Ok(());
    }
    push_byte(text, byte)
}

fn push_byte(text: &mut Vec<u8>, byte: u8) -> Result<(), AllocError>
    ensures { OnOk result (text.new.items ≡ text.old.items ++ byte_form byte) }
{
    if is_plain(byte) {
        text.push(byte)?;
        return Ok(());
    }
    let form = [
        b'\\',
        b'x',
        hexadecimal_digit(byte / 16),
        hexadecimal_digit(byte % 16),
    ];
    text.extend_from_slice(&form)?;
    Ok(())
}

fn is_plain(byte: u8) -> bool
    ensures { result ≡ is_plain byte }
{
    b'!' <= byte && byte <= b'~' && byte != b'\\'
}

/// The lower-case hexadecimal digit of a number below 16. Takes no memory.
pub fn hexadecimal_digit(value: u8) -> u8
    requires { value < 16 }
    ensures { result ≡ digit_form value }
{
    if value < 10 {
        b'0' + value
    } else {
        b'a' + (value - 10)
    }
}
