//! The logs of a trusted root, by an entry.
ghost use Rattle.std.specs.Prelude.{◌≡◌, ◌≤◌, Any, IfOk, MatchOption};
ghost use Rattle.it_log_entry.specs.Place.{place_of};
ghost use Rattle.it_vouches.specs.EntryMissed.{MissesWith};
ghost use Rattle.it_vouches.specs.Logged.{VouchesBy};
ghost use Rattle.it_vouches.specs.inside.Further.{IsFurther};
ghost use Rattle.it_vouches.specs.inside.Shows.{LacksLog};

use crate::question::Question;
use it_budget::Budget;
use it_log_entry::{EntryQuestion, EntryShortfall, LogEntry, entry_shortfall};
use it_trust_root::RootLog;
use std::alloc::{AllocError, Global};

/// The furthest condition that an entry misses where none of the logs vouches by it for what is
/// logged; `None` where one does. A log that is passed over is another log than the entry's, and
/// one with another id than the entry's costs nothing.
///
/// # Errors
///
/// `AllocError` where memory was refused, or where the budget has no check left.
pub(crate) fn shortfall_by_logs(
    alloc: Global,
    budget: &mut Budget,
    logs: &[RootLog],
    question: &Question<'_>,
    entry: &LogEntry,
) -> Result<Option<EntryShortfall>, AllocError>
    ensures answer { IfOk result (λ missed. MatchOption missed
        (Any (VouchesBy question.now.needs_proof entry.now question.now.logged) logs.now)
        (LacksLog logs.now question.now.needs_proof question.now.logged entry.now)) }
    ensures most { budget.new.most ≡ budget.old.most }
    ensures grows { budget.old.checked ≤ budget.new.checked }
{
    let mut furthest = EntryShortfall::Log;
    for log in logs {
        match shortfall_by_listed(alloc, budget, log, question, entry)? {
            Some(missed) => furthest = further(furthest, missed),
            None => return Ok(None),
        }
    }
    Ok(Some(furthest))
}

fn shortfall_by_listed(
    alloc: Global,
    budget: &mut Budget,
    log: &RootLog,
    question: &Question<'_>,
    entry: &LogEntry,
) -> Result<Option<EntryShortfall>, AllocError>
    ensures answer { IfOk result (λ missed. MatchOption missed
        (VouchesBy question.now.needs_proof entry.now question.now.logged log.now)
        (MissesWith question.now.needs_proof entry.now question.now.logged log.now)) }
    ensures most { budget.new.most ≡ budget.old.most }
    ensures grows { budget.old.checked ≤ budget.new.checked }
{
    match log {
        RootLog::Usable(log) => {
            let asked = EntryQuestion {
                logged: &question.logged,
                needs_proof: question.needs_proof,
            };
            entry_shortfall(alloc, budget, log, &asked, entry)
        }
        RootLog::PassedOver(_) => Ok(Some(EntryShortfall::Log)),
    }
}

/// The further of two conditions.
fn further(one: EntryShortfall, other: EntryShortfall) -> EntryShortfall
    ensures { IsFurther place_of one other result }
{
    if one.place() < other.place() {
        other
    } else {
        one
    }
}
