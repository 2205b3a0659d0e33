//! Notes on lines that vouch for nobody.
ghost use Rattle.std.specs.Prelude.{◌≡◌, ◌++◌, IfOk, OnOk};
ghost use Rattle.std.specs.List.{flat_map};
ghost use Rattle.it_vouched.specs.SilentText.{further_text, silent_notes, silent_text};

use crate::silent_line::SilentLine;
use std::alloc::{AllocError, Global};

/// How many lines of these notes there are at most.
const MOST_LINES: usize = 40;

/// How many of them are on a line each, where there are more of these.
const MOST_SHOWN: usize = 39;

/// The notes on lines that vouch for nobody: a line for each; where there are more than 40, the
/// last line says how many more there are.
///
/// # Errors
///
/// `AllocError` where memory was refused.
pub fn notes_on_silent(alloc: Global, silent: &[SilentLine]) -> Result<Vec<u8>, AllocError>
    ensures { IfOk result (λ text. text.items ≡ silent_notes silent.now) }
{
    if silent.len() <= MOST_LINES {
        return lines_of(alloc, silent);
    }
    let mut text = lines_of(alloc, &silent[..MOST_SHOWN])?;
    push_further(&mut text, silent.len() - MOST_SHOWN)?;
    Ok(text)
}

/// A line for each.
fn lines_of(alloc: Global, silent: &[SilentLine]) -> Result<Vec<u8>, AllocError>
    ensures { IfOk result (λ text. text.items ≡ flat_map silent_text silent.now) }
{
    let mut text = Vec::new(alloc);
    for line in silent {
        line.push_line(&mut text)?;
    }
    Ok(text)
}

/// Appends the line that says how many more there are.
fn push_further(text: &mut Vec<u8>, count: usize) -> Result<(), AllocError>
    ensures { OnOk result (text.new.items ≡ text.old.items ++ further_text count) }
{
    let alloc = *text.allocator();
    let line = format!(in alloc; "{count} further bundles vouch for nobody\n")?;
    text.extend_from_slice(line.as_bytes())
}
