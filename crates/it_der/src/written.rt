//! Writing elements.
ghost use Rattle.std.specs.Prelude.{◌≡◌, ◌^◌, ◌<◌, ◌++◌, OnOk, length};
ghost use Rattle.it_der.specs.Element.{length_form, wrap};

use crate::length::{IN_ONE_BYTE, IN_TWO_BYTES};
use std::alloc::AllocError;

/// Writes an element of this tag and content after the bytes (X.690, sections 8.1 and 10.1).
///
/// # Errors
///
/// `AllocError` where memory was refused; some of the element may be written then.
pub fn append_element(bytes: &mut Vec<u8>, tag: u8, content: &[u8]) -> Result<(), AllocError>
    requires { length content.now < 2 ^ 16 }
    ensures { OnOk result (bytes.new.items ≡ bytes.old.items ++ wrap tag content.now) }
{
    bytes.push(tag)?;
    append_length(bytes, content.len())?;
    bytes.extend_from_slice(content)?;
    Ok(())
}

/// Writes how long a content is.
fn append_length(bytes: &mut Vec<u8>, length: usize) -> Result<(), AllocError>
    requires { length < 2 ^ 16 }
    ensures { OnOk result (bytes.new.items ≡ bytes.old.items ++ length_form length) }
{
    if length < 128 {
        bytes.push(length as u8)?;
        return Ok(());
    }
    if length < 256 {
        bytes.push(IN_ONE_BYTE)?;
        bytes.push(length as u8)?;
        return Ok(());
    }
    bytes.push(IN_TWO_BYTES)?;
    bytes.push((length / 256) as u8)?;
    bytes.push((length % 256) as u8)?;
    Ok(())
}
