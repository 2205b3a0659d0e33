//! How far the entries of a bundle and the authorities of a trusted root attest a leaf.
ghost use Rattle.std.specs.Prelude.{◌≡◌, ◌≤◌, IfOk};
ghost use Rattle.it_certificate.specs.Certificate.{facts_of};
ghost use Rattle.it_certificate_log.specs.Bare.{WasRead};
ghost use Rattle.it_vouches.specs.inside.Shows.{AllShow, EntryShows, ListedShows};

use crate::attestation::Attestation;
use crate::entry_log::shortfall_by_logs;
use crate::question::Question;
use crate::trust::Trust;
use it_budget::Budget;
use it_bundle::ListedEntry;
use it_log_entry::LogEntry;
use std::alloc::{AllocError, Global};

/// How far a leaf comes by the entries: whether, by one of them, a log vouches for what is logged,
/// and at which such entry's time the leaf was issued and promised to be logged; otherwise the
/// furthest condition that is missed. The first entry by which all of it is so ends the search.
///
/// # Errors
///
/// `AllocError` where memory was refused, or where the budget has no check left.
pub(crate) fn attestation_by(
    alloc: Global,
    budget: &mut Budget,
    trust: &Trust<'_>,
    question: &Question<'_>,
    entries: &[ListedEntry],
) -> Result<Attestation, AllocError>
    requires { WasRead question.now.leaf.now }
    ensures answer { IfOk result (AllShow (ListedShows trust.now question.now.needs_proof
        question.now.logged (facts_of question.now.leaf.now)) entries.now) }
    ensures most { budget.new.most ≡ budget.old.most }
    ensures grows { budget.old.checked ≤ budget.new.checked }
{
    let mut furthest = Attestation::NoEntry;
    for listed in entries {
        let found = attestation_by_listed(alloc, budget, trust, question, listed)?;
        if let Attestation::Attested(time) = found {
            return Ok(Attestation::Attested(time));
        }
        furthest = furthest.further(found);
    }
    Ok(furthest)
}

fn attestation_by_listed(
    alloc: Global,
    budget: &mut Budget,
    trust: &Trust<'_>,
    question: &Question<'_>,
    listed: &ListedEntry,
) -> Result<Attestation, AllocError>
    requires { WasRead question.now.leaf.now }
    ensures answer { IfOk result (ListedShows trust.now question.now.needs_proof question.now.logged
        (facts_of question.now.leaf.now) listed.now) }
    ensures most { budget.new.most ≡ budget.old.most }
    ensures grows { budget.old.checked ≤ budget.new.checked }
{
    match listed {
        ListedEntry::Entry(entry) => attestation_by_entry(alloc, budget, trust, question, entry),
        ListedEntry::Unreadable => Ok(Attestation::NoEntry),
    }
}

fn attestation_by_entry(
    alloc: Global,
    budget: &mut Budget,
    trust: &Trust<'_>,
    question: &Question<'_>,
    entry: &LogEntry,
) -> Result<Attestation, AllocError>
    requires { WasRead question.now.leaf.now }
    ensures answer { IfOk result (EntryShows trust.now question.now.needs_proof question.now.logged
        (facts_of question.now.leaf.now) entry.now) }
    ensures most { budget.new.most ≡ budget.old.most }
    ensures grows { budget.old.checked ≤ budget.new.checked }
{
    if let Some(missed) = shortfall_by_logs(alloc, budget, trust.logs(), question, entry)? {
        return Ok(Attestation::NoLog(missed));
    }
    if let Some(missed) = trust.issuer_shortfall(alloc, budget, question.leaf, entry.time)? {
        return Ok(Attestation::NoIssuer(missed));
    }
    Ok(Attestation::Attested(entry.time))
}
