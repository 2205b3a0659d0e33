//! Notes on the logs of a trusted root.
ghost use Rattle.std.specs.Prelude.{◌≡◌, ◌++◌, IfOk, OnOk};
ghost use Rattle.std.specs.List.{list_any};
ghost use Rattle.it_root_notes.specs.LogText.{is_used, list_notes, log_lines, log_notes};

use crate::front::push_none_used;
use crate::log_line::push_log;
use it_trust_root::{RootLog, TrustedRoot};
use std::alloc::{AllocError, Global};

/// The notes on the logs of a trusted root: a line for each log of entries that is passed over, and
/// one that no bundle vouches for anybody where none of them is used; then the same of the logs of
/// certificates. Logs have their places in their lists, from 0.
///
/// # Errors
///
/// `AllocError` where memory was refused.
pub fn notes_on_logs(alloc: Global, root: &TrustedRoot) -> Result<Vec<u8>, AllocError>
    ensures { IfOk result (λ text. text.items ≡ log_notes root.now) }
{
    let mut text = Vec::new(alloc);
    push_list(&mut text, "tlogs", root.logs.as_slice())?;
    push_list(&mut text, "ctlogs", root.certificate_logs.as_slice())?;
    Ok(text)
}

/// Appends the notes on a list of logs.
fn push_list(text: &mut Vec<u8>, list: &str, logs: &[RootLog]) -> Result<(), AllocError>
    ensures { OnOk result (text.new.items ≡ text.old.items ++ list_notes list.now logs.now) }
{
    push_lines(text, list, logs)?;
    if has_used(logs) {
        return Ok(());
    }
    push_none_used(text, list)
}

/// Appends a line for each log that is passed over.
fn push_lines(text: &mut Vec<u8>, list: &str, logs: &[RootLog]) -> Result<(), AllocError>
    ensures { OnOk result (text.new.items ≡ text.old.items ++ log_lines list.now logs.now) }
{
    for (place, log) in logs.iter().enumerate() {
        push_log(text, list, place, log)?;
    }
    Ok(())
}

/// Whether one of the logs is used.
fn has_used(logs: &[RootLog]) -> bool
    ensures { result ≡ list_any is_used logs.now }
{
    for log in logs {
        if matches!(log, RootLog::Usable(_)) {
            return true;
        }
    }
    false
}
