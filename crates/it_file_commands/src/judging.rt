//! Bundles that are judged, within a number of checks of signatures.
ghost use Rattle.std.specs.Prelude.{◌≡◌, Ok, IfErr, IfOk, IsErr, false, true};

use it_disk::Fault;
use it_outcome::RunFault;
use it_vouched::{CountedLines, JudgedLines};
use it_vouches::MOST_CHECKS;

/// What was judged by a trusted root.
///
/// # Errors
///
/// `Fault::TooManyChecks` where more signatures would have had to be checked than `MOST_CHECKS`,
/// so that the budget is spent, and `Fault::Run` where memory was refused.
pub fn judged_or_fault(counted: CountedLines) -> Result<JudgedLines, Fault>
    ensures judged { IfOk result (λ lines. counted.judged ≡ Ok lines) }
    ensures refused { IfErr result (λ _. IsErr counted.judged) }
    ensures spent { IfErr result (λ fault. counted.budget.spent ≡ true
        → fault ≡ Fault.TooManyChecks 20000) }
    ensures memory { IfErr result (λ fault. counted.budget.spent ≡ false
        → fault ≡ Fault.Run RunFault.OutOfMemory) }
{
    let CountedLines { judged, budget } = counted;
    match judged {
        Err(_) if budget.is_spent() => Err(Fault::TooManyChecks { limit: MOST_CHECKS }),
        judged => Ok(judged?),
    }
}
