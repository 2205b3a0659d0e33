//! The refusal of bytes that are not an envelope.
ghost use Rattle.std.specs.Prelude.{◌≡◌, IfOk};
ghost use Rattle.it_report.specs.Report.{report_of};
ghost use Rattle.it_commands.specs.NoEnvelope.{no_envelope};

use it_base::sequence::Sequence;
use it_outcome::Status;
use it_outcome::output::Output;
use it_report::refusal::{Fault, Refusal};
use it_report::refused_report;
use it_report::verdict::Verdict;
use std::alloc::{AllocError, Global};

/// The report that refuses bytes that are not an envelope, with the status `Refused`.
///
/// # Errors
///
/// `AllocError` where memory was refused.
pub fn no_envelope_output(alloc: Global) -> Result<Output, AllocError>
    ensures { IfOk result (λ output. (output.text.items ≡ report_of (Verdict.Refused no_envelope))
        × (output.status ≡ Status.Refused)) }
{
    let refusal = Refusal {
        at: Sequence::from(Vec::new(alloc)),
        fault: Fault::BadEnvelope,
    };
    Ok(Output {
        text: refused_report(alloc, &refusal)?,
        status: Status::Refused,
    })
}
