//! What was judged of bundles, so that a line that stands again is not judged again.
ghost use Rattle.std.specs.Prelude.{◌≡◌, ◌≤◌, ℕ, List, None, IfOk, MatchOption, OnOk};
ghost use Rattle.it_base.specs.Finds.{Finds};
ghost use Rattle.it_vouched.specs.Line.{IsVouched};
ghost use Rattle.it_vouched.specs.Silent.{LineMisses, MissesNothing};
ghost use Rattle.it_vouched.specs.inside.KnownLines.{AreRight, IsKept, judged_at};

use crate::vouched::{LineJudged, judged_line};
use it_budget::Budget;
use it_vouches::Trust;
use std::alloc::{AllocError, Global};
use std::collections::BTreeMap;

/// What was judged of the lines so far that are bundles, by their bytes.
#[derive(Drop)]
pub(crate) struct KnownLines<'a> {
    by_line: BTreeMap<&'a [u8], LineJudged>,
}

impl<'a> KnownLines<'a> {
    /// No lines. Takes no memory.
    pub(crate) fn new(alloc: Global) -> KnownLines<'a>
        ensures { (line : List ℕ) → judged_at result line ≡ None }
    {
        KnownLines {
            by_line: BTreeMap::new(alloc),
        }
    }

    /// What is judged of a line, by the trusted root that judged the others. A bundle is judged
    /// where its line did not stand before.
    ///
    /// # Errors
    ///
    /// `AllocError` where memory was refused, or where the budget has no check left.
    pub(crate) fn judged(
        &mut self,
        alloc: Global,
        budget: &mut Budget,
        trust: &Trust<'_>,
        line: &'a [u8],
    ) -> Result<LineJudged, AllocError>
        requires { AreRight trust.now self.old }
        ensures vouched { IfOk result
            (λ judged. Finds (IsVouched trust.now line.now) judged.vouched) }
        ensures misses { IfOk result (λ judged. MatchOption judged.shortfall
            (MissesNothing trust.now line.now) (LineMisses trust.now line.now)) }
        ensures right { IfOk result (λ _. AreRight trust.now self.new) }
        ensures most { budget.new.most ≡ budget.old.most }
        ensures grows { budget.old.checked ≤ budget.new.checked }
    {
        if let Some(judged) = self.by_line.get(line) {
            return judged.copy(alloc);
        }
        let judged = judged_line(alloc, budget, trust, line)?;
        self.keep(alloc, line, &judged)?;
        Ok(judged)
    }

    /// Keeps what was judged of a line, where it is a bundle.
    fn keep(&mut self, alloc: Global, line: &'a [u8], judged: &LineJudged) -> Result<(), AllocError>
        ensures { OnOk result (IsKept self.old self.new line.now judged.now) }
    {
        if judged.vouched.is_none() && judged.shortfall.is_none() {
            return Ok(());
        }
        self.by_line.insert(line, judged.copy(alloc)?)?;
        Ok(())
    }
}
