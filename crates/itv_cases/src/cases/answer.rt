//! The answer of a verification.
ghost use Rattle.std.specs.Prelude.{◌≡◌, ◌≤◌, ◌↔◌, IsTrue, IfOk, map};
ghost use Rattle.it_dsse.specs.Panel.{panel_of};

use crate::cases::wanted::Wanted;
use it_base::sequence::Sequence;
use it_dsse::check::SignatureCheck;
use it_outcome::exit_of;
use it_verify::inputs::Inputs;
use it_verify::run_verify;
use std::alloc::{AllocError, Global};

/// A report, and the status that goes with it.
#[derive(Drop)]
pub(crate) struct Answer {
    /// The bytes of the report.
    pub(crate) report: Sequence<u8>,
    /// The exit status.
    pub(crate) status: u8,
}

impl Answer {
    ghost use Rattle.itv_cases.specs.Agreement.{Meets};
    ghost use Rattle.itv_cases.specs.Answer.{IsAnswer};

    /// Whether it is what is wanted: each byte of the report, and the status.
    pub(crate) fn meets(&self, wanted: &Wanted) -> bool
        ensures { IsTrue result ↔ Meets wanted.now self.now }
    {
        self.status == wanted.status && self.report.as_slice() == wanted.report.as_slice()
    }

    /// The answer of `run_verify`.
    ///
    /// # Errors
    ///
    /// `AllocError` where memory was refused.
    pub(crate) fn of(
        alloc: Global,
        inputs: &Inputs,
        panel: &[Box<dyn SignatureCheck>],
    ) -> Result<Answer, AllocError>
        requires { inputs.now.depth ≤ 8 }
        ensures { IfOk result (IsAnswer (panel_of (map meaning panel.now)) inputs.now) }
    {
        let mut report = Vec::new(alloc);
        match run_verify(alloc, inputs, panel, &mut report) {
            Ok(status) => Ok(Answer {
                report: Sequence::from(report),
                status: exit_of(&Ok(status)),
            }),
            // A vector takes all that is written to it, where memory suffices.
            Err(_) => Err(AllocError),
        }
    }
}
