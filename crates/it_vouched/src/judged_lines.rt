//! Lines of provenance, judged by a trusted root.
ghost use Rattle.std.specs.Prelude.{◌≡◌, ◌≤◌, [], ◌∷◌, IfOk, MatchOption};
ghost use Rattle.it_digest.specs.Sums.{lines_of};
ghost use Rattle.it_vouched.specs.Line.{AreVouched};
ghost use Rattle.it_vouched.specs.Silent.{AreSilent};

use crate::known_lines::KnownLines;
use crate::silent_line::SilentLine;
use crate::vouched::{Vouched, judged_line};
use crate::vouched_lines::VouchedLines;
use it_base::optional::push_some;
use it_base::sequence::Sequence;
use it_budget::Budget;
use it_digest::sums::split_line;
use it_vouches::{Shortfall, Trust};
use std::alloc::{AllocError, Global};

/// What lines of provenance are judged to be.
#[derive(Drop)]
pub struct JudgedLines {
    /// What they vouch for.
    pub vouched: VouchedLines,
    /// Those that are bundles and vouch for nobody, in their order.
    pub silent: Sequence<SilentLine>,
}

impl JudgedLines {
    /// The lines of provenance, by a trusted root. A bundle that stands on several of them is
    /// judged once, and a line that is no bundle is passed over.
    ///
    /// # Errors
    ///
    /// `AllocError` where memory was refused, or where the budget has no check left.
    pub fn of(
        alloc: Global,
        budget: &mut Budget,
        trust: &Trust<'_>,
        provenance: &[u8],
    ) -> Result<JudgedLines, AllocError>
        ensures vouched { IfOk result
            (λ judged. AreVouched trust.now (lines_of provenance.now) judged.vouched) }
        ensures silent { IfOk result
            (λ judged. AreSilent trust.now (lines_of provenance.now) judged.silent) }
        ensures most { budget.new.most ≡ budget.old.most }
        ensures grows { budget.old.checked ≤ budget.new.checked }
    {
        let Judging { all, silent } = judging_of(alloc, budget, trust, provenance)?;
        Ok(JudgedLines {
            vouched: VouchedLines::new(all),
            silent: Sequence::from(silent),
        })
    }

    /// Bytes, such as those of a file, judged as one line, by a trusted root: line feeds in them
    /// are bytes like any other.
    ///
    /// # Errors
    ///
    /// `AllocError` where memory was refused, or where the budget has no check left.
    pub fn of_one(
        alloc: Global,
        budget: &mut Budget,
        trust: &Trust<'_>,
        bytes: &[u8],
    ) -> Result<JudgedLines, AllocError>
        ensures vouched { IfOk result
            (λ judged. AreVouched trust.now (bytes.now ∷ []) judged.vouched) }
        ensures silent { IfOk result
            (λ judged. AreSilent trust.now (bytes.now ∷ []) judged.silent) }
        ensures most { budget.new.most ≡ budget.old.most }
        ensures grows { budget.old.checked ≤ budget.new.checked }
    {
        let mut all = Vec::new(alloc);
        let mut silent = Vec::new(alloc);
        let judged = judged_line(alloc, budget, trust, bytes)?;
        push_some(&mut all, judged.vouched)?;
        push_some(&mut silent, silent_line(1, judged.shortfall))?;
        Ok(JudgedLines {
            vouched: VouchedLines::new(all),
            silent: Sequence::from(silent),
        })
    }
}

/// What is judged of the lines so far.
#[derive(Drop)]
struct Judging {
    all: Vec<Vouched>,
    silent: Vec<SilentLine>,
}

fn judging_of(
    alloc: Global,
    budget: &mut Budget,
    trust: &Trust<'_>,
    provenance: &[u8],
) -> Result<Judging, AllocError>
    ensures vouched { IfOk result
        (λ judging. AreVouched trust.now (lines_of provenance.now) judging.all.items) }
    ensures silent { IfOk result
        (λ judging. AreSilent trust.now (lines_of provenance.now) judging.silent.items) }
    ensures most { budget.new.most ≡ budget.old.most }
    ensures grows { budget.old.checked ≤ budget.new.checked }
{
    let mut all = Vec::new(alloc);
    let mut silent = Vec::new(alloc);
    let mut number = 0;
    let mut known = KnownLines::new(alloc);
    let mut rest = provenance;
    while !rest.is_empty() {
        let (line, after) = split_line(rest);
        number += 1;
        let judged = known.judged(alloc, budget, trust, line)?;
        push_some(&mut all, judged.vouched)?;
        push_some(&mut silent, silent_line(number, judged.shortfall))?;
        rest = after;
    }
    Ok(Judging { all, silent })
}

/// The line of a number, where it misses a condition.
fn silent_line(line: usize, shortfall: Option<Shortfall>) -> Option<SilentLine>
    ensures { MatchOption shortfall (result ≡ None)
        (λ missed. result ≡ Some (record { line = line; shortfall = missed })) }
{
    let shortfall = shortfall?;
    Some(SilentLine { line, shortfall })
}
