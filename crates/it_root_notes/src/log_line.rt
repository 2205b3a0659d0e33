//! The line of a note on a log.
ghost use Rattle.std.specs.Prelude.{◌≡◌, ◌++◌, OnOk, codes};
ghost use Rattle.it_report.specs.Name.{cut_form};
ghost use Rattle.it_root_notes.specs.LogText.{bytes_text, log_text, reason_text, unused_text};

use crate::front::push_front;
use it_base::text::Text;
use it_report::name::push_cut_name;
use it_trust_root::{RootLog, Unusable};
use std::alloc::AllocError;

/// Appends the line of a note on the log at a place of a list, which ends with a line feed, where
/// the log is passed over.
///
/// # Errors
///
/// `AllocError` where memory was refused; a part of the line may have been appended then.
pub(crate) fn push_log(
    text: &mut Vec<u8>,
    list: &str,
    place: usize,
    log: &RootLog,
) -> Result<(), AllocError>
    ensures { OnOk result
        (text.new.items ≡ text.old.items ++ log_text list.now (place, log.now)) }
{
    match log {
        RootLog::Usable(_) => Ok(()),
        RootLog::PassedOver(reason) => push_unused(text, list, place, reason),
    }
}

#[tactic(auto, unfolding(crate::specs::LogText::unused_text))]
fn push_unused(
    text: &mut Vec<u8>,
    list: &str,
    place: usize,
    reason: &Unusable,
) -> Result<(), AllocError>
    ensures { OnOk result
        (text.new.items ≡ text.old.items ++ unused_text list.now place reason.now) }
{
    push_front(text, list, place)?;
    push_reason(text, reason)?;
    text.push(b'\n')?;
    Ok(())
}

/// Appends why a log is not used.
fn push_reason(text: &mut Vec<u8>, reason: &Unusable) -> Result<(), AllocError>
    ensures { OnOk result (text.new.items ≡ text.old.items ++ reason_text reason.now) }
{
    match reason {
        Unusable::HashAlgorithm(name) => push_named(text, "its hashAlgorithm is ", name),
        Unusable::KeyDetails(name) => push_named(text, "its keyDetails is ", name),
        Unusable::IdLength(count) => push_bytes(text, *count),
    }
}

/// Appends a name behind a text, as `push_cut_name` writes it.
fn push_named(text: &mut Vec<u8>, before: &str, name: &Text) -> Result<(), AllocError>
    ensures { OnOk result
        (text.new.items ≡ text.old.items ++ (before.now ++ cut_form name.now)) }
{
    text.extend_from_slice(before.as_bytes())?;
    push_cut_name(text, name.as_str().as_bytes())
}

/// Appends how many bytes an id has.
fn push_bytes(text: &mut Vec<u8>, count: usize) -> Result<(), AllocError>
    ensures { OnOk result
        (text.new.items ≡ text.old.items ++ (codes "its keyId has " ++ bytes_text count)) }
{
    if count == 1 {
        text.extend_from_slice(b"its keyId has 1 byte")?;
        return Ok(());
    }
    let alloc = *text.allocator();
    let bytes = format!(in alloc; "its keyId has {count} bytes")?;
    text.extend_from_slice(bytes.as_bytes())
}
