//! Whether a certificate log promised to log a leaf, or which condition the leaf misses.
ghost use Rattle.std.specs.Prelude.{◌≡◌, ◌↔◌, ◌^◌, ◌<◌, ◌≤◌, IfOk, IsTrue, Any, length, map};
ghost use Rattle.it_certificate.specs.Certificate.{facts_of};
ghost use Rattle.it_certificate_log.specs.Bare.{WasRead};
ghost use Rattle.it_certificate_log.specs.Timestamp.{stamp_of};
ghost use Rattle.it_issued.specs.LogMisses.{IsLogShortfall, OfUsable};
ghost use Rattle.it_issued.specs.inside.Tied.{AreShort, IsTiedItem, Tied};

use crate::by_log::{has_id, is_by_log, is_in_window};
use crate::shortfall::LogShortfall;
use crate::shown::Shown;
use crate::signature::key_info;
use it_budget::Budget;
use it_certificate::{Certificate, TIMESTAMPS, value_of};
use it_certificate_log::{Timestamp, bare_bytes, items_of, signed_text, timestamp_in};
use it_log::Log;
use it_trust_root::RootLog;
use std::alloc::{AllocError, Global};

/// What a timestamp may have to do with a log.
#[derive(Clone, Copy)]
enum Tie {
    /// It has the log's id.
    Id,
    /// And is from a moment at which the log was trusted.
    Window,
    /// And is signed by the log.
    Signature,
}

/// The condition that a leaf of this issuer misses where none of the logs promised to log it.
/// `None` where one did: where at least one of the leaf's timestamps is by one of the logs, from a
/// moment at which that log was trusted (RFC 6962, section 3.3). A log that is passed over promised
/// nothing, and neither did any log where the leaf's timestamps do not read; a timestamp that is
/// not by a log says nothing of the others. Where there are several timestamps and logs, the two
/// that come furthest count. Signatures are looked at last.
///
/// # Errors
///
/// `AllocError` where memory was refused, or where the budget has no check left.
pub fn log_shortfall(
    alloc: Global,
    budget: &mut Budget,
    logs: &[RootLog],
    issuer: &Certificate<'_>,
    leaf: &Certificate<'_>,
) -> Result<Option<LogShortfall>, AllocError>
    requires issuer_read { WasRead issuer.now }
    requires leaf_read { WasRead leaf.now }
    ensures answer { IfOk result
        (IsLogShortfall logs.now (facts_of issuer.now) (facts_of leaf.now)) }
    ensures most { budget.new.most ≡ budget.old.most }
    ensures grows { budget.old.checked ≤ budget.new.checked }
{
    let extensions = leaf.extensions.as_slice();
    let Some(value) = value_of(extensions, &TIMESTAMPS) else {
        return Ok(Some(LogShortfall::Missing));
    };
    let Some(items) = items_of(alloc, value)? else {
        return Ok(Some(LogShortfall::Form));
    };
    let key = key_info(alloc, issuer)?;
    let issuer_key = key.as_slice();
    let bare = bare_bytes(alloc, leaf)?;
    let bare = bare.as_slice();
    let shown = Shown {
        logs,
        issuer_key,
        bare,
    };
    shortfall_of_items(alloc, budget, &shown, items.as_slice())
}

/// The condition that the items miss, if none of them is a promise.
fn shortfall_of_items(
    alloc: Global,
    budget: &mut Budget,
    shown: &Shown<'_>,
    items: &[&[u8]],
) -> Result<Option<LogShortfall>, AllocError>
    requires { length shown.now.bare.now < 2 ^ 24 }
    ensures answer { IfOk result (AreShort shown.now.logs.now shown.now.issuer_key.now
        shown.now.bare.now (map (λ i. i.now) items.now)) }
    ensures most { budget.new.most ≡ budget.old.most }
    ensures grows { budget.old.checked ≤ budget.new.checked }
{
    if !has_tied(alloc, budget, shown, items, Tie::Id)? {
        return Ok(Some(LogShortfall::Log));
    }
    if !has_tied(alloc, budget, shown, items, Tie::Window)? {
        return Ok(Some(LogShortfall::Window));
    }
    if !has_tied(alloc, budget, shown, items, Tie::Signature)? {
        return Ok(Some(LogShortfall::Signature));
    }
    Ok(None)
}

/// Whether one of the items is a timestamp that is so tied to one of the logs.
fn has_tied(
    alloc: Global,
    budget: &mut Budget,
    shown: &Shown<'_>,
    items: &[&[u8]],
    tie: Tie,
) -> Result<bool, AllocError>
    requires { length shown.now.bare.now < 2 ^ 24 }
    ensures answer { IfOk result (λ is. IsTrue is
        ↔ Any (IsTiedItem shown.now.logs.now shown.now.issuer_key.now shown.now.bare.now tie)
        (map (λ i. i.now) items.now)) }
    ensures most { budget.new.most ≡ budget.old.most }
    ensures grows { budget.old.checked ≤ budget.new.checked }
{
    for &item in items {
        if is_tied_item(alloc, budget, shown, item, tie)? {
            return Ok(true);
        }
    }
    Ok(false)
}

/// Whether an item is a timestamp that is so tied to one of the logs.
fn is_tied_item(
    alloc: Global,
    budget: &mut Budget,
    shown: &Shown<'_>,
    item: &[u8],
    tie: Tie,
) -> Result<bool, AllocError>
    requires { length shown.now.bare.now < 2 ^ 24 }
    ensures answer { IfOk result (λ is. IsTrue is
        ↔ IsTiedItem shown.now.logs.now shown.now.issuer_key.now shown.now.bare.now tie
        item.now) }
    ensures most { budget.new.most ≡ budget.old.most }
    ensures grows { budget.old.checked ≤ budget.new.checked }
{
    let Some(timestamp) = timestamp_in(item) else {
        return Ok(false);
    };
    let text = signed_text(alloc, shown.issuer_key, shown.bare, &timestamp)?;
    is_tied_to_one(budget, shown.logs, text.as_slice(), &timestamp, tie)
}

/// Whether a timestamp is so tied to one of the logs.
fn is_tied_to_one(
    budget: &mut Budget,
    logs: &[RootLog],
    text: &[u8],
    timestamp: &Timestamp<'_>,
    tie: Tie,
) -> Result<bool, AllocError>
    requires { length timestamp.now.moment.now ≡ 8 }
    ensures answer { IfOk result (λ is. IsTrue is
        ↔ Any (OfUsable (Tied tie text.now (stamp_of timestamp.now))) logs.now) }
    ensures most { budget.new.most ≡ budget.old.most }
    ensures grows { budget.old.checked ≤ budget.new.checked }
{
    for log in logs {
        if is_tied_to_listed(budget, log, text, timestamp, tie)? {
            return Ok(true);
        }
    }
    Ok(false)
}

fn is_tied_to_listed(
    budget: &mut Budget,
    log: &RootLog,
    text: &[u8],
    timestamp: &Timestamp<'_>,
    tie: Tie,
) -> Result<bool, AllocError>
    requires { length timestamp.now.moment.now ≡ 8 }
    ensures answer { IfOk result (λ is. IsTrue is
        ↔ OfUsable (Tied tie text.now (stamp_of timestamp.now)) log.now) }
    ensures most { budget.new.most ≡ budget.old.most }
    ensures grows { budget.old.checked ≤ budget.new.checked }
{
    match log {
        RootLog::Usable(log) => is_tied(budget, log, text, timestamp, tie),
        RootLog::PassedOver(_) => Ok(false),
    }
}

fn is_tied(
    budget: &mut Budget,
    log: &Log,
    text: &[u8],
    timestamp: &Timestamp<'_>,
    tie: Tie,
) -> Result<bool, AllocError>
    requires { length timestamp.now.moment.now ≡ 8 }
    ensures answer { IfOk result (λ is. IsTrue is
        ↔ Tied tie text.now (stamp_of timestamp.now) log.now) }
    ensures most { budget.new.most ≡ budget.old.most }
    ensures grows { budget.old.checked ≤ budget.new.checked }
{
    match tie {
        Tie::Id => Ok(has_id(log, timestamp)),
        Tie::Window => Ok(is_in_window(log, timestamp)),
        Tie::Signature => is_by_log(budget, log, text, timestamp),
    }
}
