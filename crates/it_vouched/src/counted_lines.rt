//! Lines of provenance that are judged within a number of checks of signatures.
ghost use Rattle.std.specs.Prelude.{◌≡◌, ◌≤◌, [], ◌∷◌, IfOk};
ghost use Rattle.it_digest.specs.Sums.{lines_of};
ghost use Rattle.it_vouched.specs.Line.{AreVouched};
ghost use Rattle.it_vouched.specs.Silent.{AreSilent};

use crate::judged_lines::JudgedLines;
use it_budget::Budget;
use it_trust_root::TrustedRoot;
use it_vouches::{MOST_CHECKS, Trust};
use std::alloc::{AllocError, Global};

/// What a run judges by a trusted root, and how many signatures it checked for that. The
/// certificates of the root's authorities are read and checked once, and each line once.
#[derive(Drop)]
pub struct CountedLines {
    /// What the lines are judged to be; `AllocError` where memory was refused, or where more
    /// signatures would have had to be checked.
    pub judged: Result<JudgedLines, AllocError>,
    /// The one budget of all these checks, as they left it.
    pub budget: Budget,
}

impl CountedLines {
    /// The lines of provenance, judged by a trusted root. At most `MOST_CHECKS` signatures are
    /// checked: those of the authorities' certificates, and those of all lines.
    pub fn of(alloc: Global, root: &TrustedRoot, provenance: &[u8]) -> CountedLines
        ensures vouched { IfOk result.judged
            (λ lines. AreVouched root.now (lines_of provenance.now) lines.vouched) }
        ensures silent { IfOk result.judged
            (λ lines. AreSilent root.now (lines_of provenance.now) lines.silent) }
        ensures most { result.budget.most ≡ 20_000 }
        ensures checked { result.budget.checked ≤ 20_000 }
    {
        let mut budget = whole_budget();
        let judged = judged_of(alloc, &mut budget, root, provenance);
        CountedLines { judged, budget }
    }

    /// Bytes, such as those of a file, judged as one line, by a trusted root. At most `MOST_CHECKS`
    /// signatures are checked: those of the authorities' certificates, and those of the line.
    pub fn of_one(alloc: Global, root: &TrustedRoot, bytes: &[u8]) -> CountedLines
        ensures vouched { IfOk result.judged
            (λ lines. AreVouched root.now (bytes.now ∷ []) lines.vouched) }
        ensures silent { IfOk result.judged
            (λ lines. AreSilent root.now (bytes.now ∷ []) lines.silent) }
        ensures most { result.budget.most ≡ 20_000 }
        ensures checked { result.budget.checked ≤ 20_000 }
    {
        let mut budget = whole_budget();
        let judged = judged_of_one(alloc, &mut budget, root, bytes);
        CountedLines { judged, budget }
    }
}

/// The budget of a run, of which nothing is taken.
fn whole_budget() -> Budget
    ensures most { result.most ≡ 20_000 }
    ensures none { result.checked ≡ 0 }
{
    Budget::new(MOST_CHECKS)
}

fn judged_of(
    alloc: Global,
    budget: &mut Budget,
    root: &TrustedRoot,
    provenance: &[u8],
) -> Result<JudgedLines, AllocError>
    ensures vouched { IfOk result
        (λ lines. AreVouched root.now (lines_of provenance.now) lines.vouched) }
    ensures silent { IfOk result
        (λ lines. AreSilent root.now (lines_of provenance.now) lines.silent) }
    ensures most { budget.new.most ≡ budget.old.most }
    ensures grows { budget.old.checked ≤ budget.new.checked }
{
    let trust = Trust::of(alloc, budget, root)?;
    JudgedLines::of(alloc, budget, &trust, provenance)
}

fn judged_of_one(
    alloc: Global,
    budget: &mut Budget,
    root: &TrustedRoot,
    bytes: &[u8],
) -> Result<JudgedLines, AllocError>
    ensures vouched { IfOk result
        (λ lines. AreVouched root.now (bytes.now ∷ []) lines.vouched) }
    ensures silent { IfOk result
        (λ lines. AreSilent root.now (bytes.now ∷ []) lines.silent) }
    ensures most { budget.new.most ≡ budget.old.most }
    ensures grows { budget.old.checked ≤ budget.new.checked }
{
    let trust = Trust::of(alloc, budget, root)?;
    JudgedLines::of_one(alloc, budget, &trust, bytes)
}
