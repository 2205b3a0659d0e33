//! One line of a report: a word and its value.
ghost use Rattle.std.specs.Prelude.{◌≡◌, ◌++◌, OnOk, decimal};
ghost use Rattle.it_report.specs.Name.{name_form};
ghost use Rattle.it_report.specs.Report.{line};

use crate::name::push_name;
use it_base::text::Text;
use std::alloc::{AllocError, Global};

pub(super) fn push_line(text: &mut Vec<u8>, word: &str, value: &str) -> Result<(), AllocError>
    ensures { OnOk result (text.new.items ≡ text.old.items ++ line word.now value.now) }
{
    text.extend_from_slice(word.as_bytes())?;
    text.push(b' ')?;
    text.extend_from_slice(value.as_bytes())?;
    text.push(b'\n')?;
    Ok(())
}

pub(super) fn push_name_line(text: &mut Vec<u8>, word: &str, name: &Text) -> Result<(), AllocError>
    ensures { OnOk result (text.new.items ≡ text.old.items ++ line word.now (name_form name.now)) }
{
    text.extend_from_slice(word.as_bytes())?;
    text.push(b' ')?;
    push_name(text, name.as_str().as_bytes())?;
    text.push(b'\n')?;
    Ok(())
}

pub(super) fn push_number_line(
    alloc: Global,
    text: &mut Vec<u8>,
    word: &str,
    number: u64,
) -> Result<(), AllocError>
    ensures { OnOk result (text.new.items ≡ text.old.items ++ line word.now (decimal number)) }
{
    let line = format!(in alloc; "{word} {number}\n")?;
    text.extend_from_slice(line.as_bytes())
}
