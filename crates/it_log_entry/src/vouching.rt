//! Whether an entry vouches for a signature, or which condition it misses.
ghost use Rattle.std.specs.Prelude.{◌≡◌, ◌↔◌, ◌*◌, ◌≤◌, pos, IfOk, IsTrue, MatchOption};
ghost use Rattle.it_log.specs.Window.{LiesIn};
ghost use Rattle.it_log_entry.specs.EntryMisses.{EntryMisses, IsIncluded, IsOf};
ghost use Rattle.it_log_entry.specs.Vouching.{EntryVouches};
ghost use Rattle.it_log_entry.specs.inside.ProofMisses.{ProofMisses};

use crate::agreement::body_shortfall;
use crate::checkpoint::checkpoint_shortfall;
use crate::entry::LogEntry;
use crate::entry_question::EntryQuestion;
use crate::read_kind::is_read_kind;
use crate::shortfall::EntryShortfall;
use crate::stamp::is_promised;
use it_budget::Budget;
use it_log::{Log, Window};
use it_merkle::{leads, leaf_hash};
use std::alloc::{AllocError, Global};

/// Nanoseconds in a second.
const NANOSECONDS: i128 = 1_000_000_000;

/// The first condition that an entry misses, where the log does not vouch by it that a signature
/// was made with a certificate and logged at the entry's time; `None` where it does. An entry
/// without an inclusion proof vouches only where none is needed.
///
/// # Errors
///
/// `AllocError` where memory was refused, or where the budget has no check left.
pub fn entry_shortfall(
    alloc: Global,
    budget: &mut Budget,
    log: &Log,
    question: &EntryQuestion<'_>,
    entry: &LogEntry,
) -> Result<Option<EntryShortfall>, AllocError>
    ensures answer { IfOk result (λ missed. MatchOption missed
        (EntryVouches log.now question.now.needs_proof entry.now question.now.logged.now)
        (EntryMisses log.now question.now.needs_proof entry.now question.now.logged.now)) }
    ensures most { budget.new.most ≡ budget.old.most }
    ensures grows { budget.old.checked ≤ budget.new.checked }
{
    if !is_of(log, entry) {
        return Ok(Some(EntryShortfall::Log));
    }
    if !counts(&log.window, entry.time) {
        return Ok(Some(EntryShortfall::Time));
    }
    if !is_read_kind(&entry.kind) {
        return Ok(Some(EntryShortfall::Kind));
    }
    let body = entry.body.as_slice();
    if let Some(part) = body_shortfall(alloc, &entry.kind, body, question.logged)? {
        return Ok(Some(EntryShortfall::Body(part)));
    }
    if let Some(missed) = proof_shortfall(alloc, budget, log, question.needs_proof, entry)? {
        return Ok(Some(missed));
    }
    if !is_promised(alloc, budget, log, entry)? {
        return Ok(Some(EntryShortfall::Promise));
    }
    Ok(None)
}

/// Whether the log vouches, by an entry, that a signature was made with a certificate and logged at
/// the entry's time.
///
/// # Errors
///
/// `AllocError` where memory was refused, or where the budget has no check left.
#[tactic(auto, using(crate::proofs::Shortfalls::none_where_vouching))]
pub fn vouches(
    alloc: Global,
    budget: &mut Budget,
    log: &Log,
    question: &EntryQuestion<'_>,
    entry: &LogEntry,
) -> Result<bool, AllocError>
    ensures answer { IfOk result (λ vouches. IsTrue vouches
        ↔ EntryVouches log.now question.now.needs_proof entry.now question.now.logged.now) }
    ensures most { budget.new.most ≡ budget.old.most }
    ensures grows { budget.old.checked ≤ budget.new.checked }
{
    let missed = entry_shortfall(alloc, budget, log, question, entry)?;
    Ok(missed.is_none())
}

/// Whether an entry is of this log.
fn is_of(log: &Log, entry: &LogEntry) -> bool
    ensures { IsTrue result ↔ IsOf log.now entry.now }
{
    entry.log_id.as_slice() == log.id.as_slice()
}

/// Whether a time, in seconds, lies in the window.
fn counts(window: &Window, time: u64) -> bool
    ensures { IsTrue result ↔ LiesIn window.now (pos (1_000_000_000 * time)) }
{
    window.contains(NANOSECONDS * i128::from(time))
}

/// The condition on its proof that an entry misses.
fn proof_shortfall(
    alloc: Global,
    budget: &mut Budget,
    log: &Log,
    needs_proof: bool,
    entry: &LogEntry,
) -> Result<Option<EntryShortfall>, AllocError>
    ensures answer { IfOk result (λ missed. MatchOption missed
        (IsIncluded log.now.key needs_proof entry.now)
        (ProofMisses log.now.key needs_proof entry.now)) }
    ensures most { budget.new.most ≡ budget.old.most }
    ensures grows { budget.old.checked ≤ budget.new.checked }
{
    let proof = match &entry.proof {
        Some(proof) => proof,
        None if needs_proof => return Ok(Some(EntryShortfall::NoProof)),
        None => return Ok(None),
    };
    let hash = leaf_hash(entry.body.as_slice());
    let path = proof.path.as_slice();
    if !leads(&hash, proof.index, proof.size, path, &proof.root) {
        return Ok(Some(EntryShortfall::Inclusion));
    }
    match checkpoint_shortfall(alloc, budget, log, proof)? {
        Some(missed) => Ok(Some(EntryShortfall::Checkpoint(missed))),
        None => Ok(None),
    }
}
