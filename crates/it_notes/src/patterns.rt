//! For which files the policy has expectations.
ghost use Rattle.std.specs.Prelude.{IfOk, List, ℕ};
ghost use Rattle.it_docs.specs.Policy.{PolicyOf};
ghost use Rattle.it_dsse.specs.Panel.{Panel};
ghost use Rattle.it_report.specs.declared.refusal.Fault.TheVariants.{NoExpectation};
ghost use Rattle.it_notes.specs.RefusalNotes.{TellsInputs};

use crate::known::Known;
use crate::notes::RefusalNotes;
use it_prov_notes::patterns::patterns_of;
use std::alloc::{AllocError, Global};

/// The patterns of the files of which the policy's expectations speak.
pub(crate) fn patterns_told(alloc: Global, known: &Known) -> Result<RefusalNotes, AllocError>
    requires { PolicyOf known.now.inputs.now.policy known.now.policy }
    ensures { IfOk result (λ told. (panel : Panel) (path : List ℕ)
        → TellsInputs panel known.now.inputs.now (NoExpectation path) told) }
{
    let note = patterns_of(alloc, known.policy.expectations.as_slice())?;
    Ok(RefusalNotes::Patterns(note))
}
