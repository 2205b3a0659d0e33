//! Signed entry timestamps.
ghost use Rattle.std.specs.Prelude.{◌↔◌, ◌≡◌, ◌+◌, ◌++◌, IfOk, IsTrue, OnErr, OnOk};
ghost use Rattle.std.specs.Prelude.{decimal, string_bytes};
ghost use Rattle.it_log_entry.specs.Stamp.{IsPromised, stamp_text};

use crate::entry::LogEntry;
use it_base::base64_text::base64_text_of;
use it_budget::Budget;
use it_log::Log;
use it_p256::is_signature;
use std::alloc::{AllocError, Global};

/// Whether the promise of an entry is by the log: its signature of the entry's body, time, log and
/// index. It takes one check.
pub(crate) fn is_promised(
    alloc: Global,
    budget: &mut Budget,
    log: &Log,
    entry: &LogEntry,
) -> Result<bool, AllocError>
    ensures answer { IfOk result (λ is. IsTrue is ↔ IsPromised log.now.key entry.now) }
    ensures most { budget.new.most ≡ budget.old.most }
    ensures checked { OnOk result (budget.new.checked ≡ budget.old.checked + 1) }
    ensures kept { OnErr result (budget.new.checked ≡ budget.old.checked) }
{
    let text = stamp(alloc, entry)?;
    budget.take()?;
    let key = log.key.key();
    Ok(is_signature(key, &[text.as_slice()], entry.promise.as_slice()))
}

/// The text of which the promise is a signature.
#[tactic(auto, unfolding(crate::specs::Stamp::stamp_text))]
fn stamp(alloc: Global, entry: &LogEntry) -> Result<Vec<u8>, AllocError>
    ensures { IfOk result (λ text. text.items ≡ stamp_text entry.now) }
{
    let body = base64_text_of(alloc, entry.body.as_slice())?;
    let time = decimal_text(alloc, entry.time)?;
    let log_id = hex::encode(alloc, entry.log_id.as_slice())?;
    let index = decimal_text(alloc, entry.index)?;
    let mut text = Vec::new(alloc);
    push(&mut text, "{\"body\":\"")?;
    push(&mut text, body.as_str())?;
    push(&mut text, "\",\"integratedTime\":")?;
    push(&mut text, time.as_str())?;
    push(&mut text, ",\"logID\":\"")?;
    push(&mut text, log_id.as_str())?;
    push(&mut text, "\",\"logIndex\":")?;
    push(&mut text, index.as_str())?;
    push(&mut text, "}")?;
    Ok(text)
}

/// Appends the bytes of a text.
fn push(text: &mut Vec<u8>, more: &str) -> Result<(), AllocError>
    ensures { OnOk result (text.new.items ≡ text.old.items ++ more.now) }
{
    text.extend_from_slice(more.as_bytes())
}

/// A number in decimal.
pub(crate) fn decimal_text(alloc: Global, number: u64) -> Result<String, AllocError>
    ensures { IfOk result (λ text. string_bytes text ≡ decimal number) }
{
    format!(in alloc; "{number}")
}
