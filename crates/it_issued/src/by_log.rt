//! Whether a timestamp is by a certificate log.
ghost use Rattle.std.specs.Prelude.{◌≡◌, ◌↔◌, ◌+◌, ◌*◌, ◌≤◌, IfOk, IsTrue, OnErr, OnOk};
ghost use Rattle.std.specs.Prelude.{length, pos};
ghost use Rattle.it_numbers.specs.Bytes.{big};
ghost use Rattle.it_certificate_log.specs.Timestamp.{stamp_of};
ghost use Rattle.it_log.specs.Window.{LiesIn};
ghost use Rattle.it_issued.specs.LogMisses.{HasId, IsInWindow};
ghost use Rattle.it_issued.specs.Logged.{IsByLog};

use it_budget::Budget;
use it_certificate_log::Timestamp;
use it_log::{Log, Window};
use it_p256::is_signature;
use std::alloc::AllocError;

/// Nanoseconds in a millisecond.
const NANOSECONDS: i128 = 1_000_000;

/// Whether a timestamp is by a log. Its signature is checked last, and takes one check; a timestamp
/// of another log, or from another time, takes none.
///
/// # Errors
///
/// `AllocError` where the budget has no check left.
pub(crate) fn is_by_log(
    budget: &mut Budget,
    log: &Log,
    text: &[u8],
    timestamp: &Timestamp<'_>,
) -> Result<bool, AllocError>
    requires { length timestamp.now.moment.now ≡ 8 }
    ensures answer { IfOk result (λ is. IsTrue is
        ↔ IsByLog text.now (stamp_of timestamp.now) log.now) }
    ensures most { budget.new.most ≡ budget.old.most }
    ensures grows { budget.old.checked ≤ budget.new.checked }
    ensures checked { IsInWindow (stamp_of timestamp.now) log.now
        → OnOk result (budget.new.checked ≡ budget.old.checked + 1) }
    ensures kept { OnErr result (budget.new.checked ≡ budget.old.checked) }
    ensures outside { ¬ IsInWindow (stamp_of timestamp.now) log.now
        → budget.new.checked ≡ budget.old.checked }
{
    if !is_in_window(log, timestamp) {
        return Ok(false);
    }
    budget.take()?;
    Ok(is_signature(log.key.key(), &[text], timestamp.signature))
}

/// Whether a timestamp has the id of a log, and is from a moment at which the log was trusted.
pub(crate) fn is_in_window(log: &Log, timestamp: &Timestamp<'_>) -> bool
    requires { length timestamp.now.moment.now ≡ 8 }
    ensures { IsTrue result ↔ IsInWindow (stamp_of timestamp.now) log.now }
{
    if !has_id(log, timestamp) {
        return false;
    }
    is_trusted(&log.window, milliseconds(timestamp.moment))
}

/// Whether a timestamp has the id of a log.
pub(crate) fn has_id(log: &Log, timestamp: &Timestamp<'_>) -> bool
    ensures { IsTrue result ↔ HasId (stamp_of timestamp.now) log.now }
{
    timestamp.log == log.id.as_slice()
}

/// Whether a moment, in milliseconds, lies in a window.
fn is_trusted(window: &Window, moment: u64) -> bool
    ensures { IsTrue result ↔ LiesIn window.now (pos (1_000_000 * moment)) }
{
    window.contains(NANOSECONDS * i128::from(moment))
}

/// The number that 8 bytes are, highest first.
fn milliseconds(bytes: &[u8]) -> u64
    requires { length bytes.now ≡ 8 }
    ensures { result ≡ big bytes.now }
{
    match bytes.first_chunk::<8>() {
        Some(bytes) => u64::from_be_bytes(*bytes),
        None => 0,
    }
}
