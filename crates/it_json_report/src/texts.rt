//! A text in JSON (RFC 8259, section 7).
ghost use Rattle.std.specs.Prelude.{◌≡◌, ◌++◌, OnOk};
ghost use Rattle.std.specs.List.{flat_map};
ghost use Rattle.it_json_report.specs.Json.{escaped, is_special, json_text};

use it_report::name::hexadecimal_digit;
use std::alloc::AllocError;

pub(super) fn push_text(json: &mut Vec<u8>, text: &str) -> Result<(), AllocError>
    ensures { OnOk result (json.new.items ≡ json.old.items ++ json_text text.now) }
{
    push_shown(json, text.as_bytes())
}

/// Appends a text of these bytes, between quotation marks.
pub(super) fn push_shown(json: &mut Vec<u8>, bytes: &[u8]) -> Result<(), AllocError>
    ensures { OnOk result (json.new.items ≡ json.old.items ++ json_text bytes.now) }
{
    json.push(b'"')?;
    push_bytes(json, bytes)?;
    json.push(b'"')?;
    Ok(())
}

fn push_bytes(json: &mut Vec<u8>, bytes: &[u8]) -> Result<(), AllocError>
    ensures { OnOk result (json.new.items ≡ json.old.items ++ flat_map escaped bytes.now) }
{
    for byte in bytes {
        push_byte(json, *byte)?;
    }
    Ok(())
}

fn push_byte(json: &mut Vec<u8>, byte: u8) -> Result<(), AllocError>
    ensures { OnOk result (json.new.items ≡ json.old.items ++ escaped byte) }
{
    if byte < b' ' {
        let digits = [hexadecimal_digit(byte / 16), hexadecimal_digit(byte % 16)];
        json.extend_from_slice(b"\\u00")?;
        return json.extend_from_slice(&digits);
    }
    if is_special(byte) {
        json.push(b'\\')?;
    }
    json.push(byte)?;
    Ok(())
}

fn is_special(byte: u8) -> bool
    ensures { result ≡ is_special byte }
{
    byte == b'"' || byte == b'\\'
}
