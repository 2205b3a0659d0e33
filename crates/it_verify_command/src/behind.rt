//! What stands behind a delivery that is accepted, for the forms that have it.
ghost use Rattle.std.specs.Prelude.{IfOk};
ghost use Rattle.it_evidence.specs.Evidence.{IsBehind};
ghost use Rattle.it_verify.specs.Grounds.{AreGrounds};
ghost use Rattle.it_verify_command.specs.inside.Answer.{IsBehindIn};

use crate::output_form::OutputForm;
use crate::verification::Verification;
use it_dsse::checks::Checks;
use it_evidence::evidence_of;
use it_json_report::evidence::Evidence;
use it_verify::grounds::Grounds;
use std::alloc::{AllocError, Global};

/// What stands behind a delivery that is accepted on these grounds, where the form has it.
pub(crate) fn behind_in<C: Checks>(
    alloc: Global,
    asked: &Verification<C>,
    grounds: &Grounds,
) -> Result<Option<Evidence>, AllocError>
    requires { AreGrounds (C.panel asked.now.checks.now) asked.now.inputs.now grounds.now }
    ensures { IfOk result
        (IsBehindIn asked.now.form.now (C.panel asked.now.checks.now)
        asked.now.vouched.now asked.now.inputs.now) }
{
    match asked.form {
        OutputForm::Report(_) => Ok(None),
        OutputForm::Full => Ok(Some(behind(alloc, asked, grounds)?)),
        OutputForm::Summary(_) => Ok(Some(behind(alloc, asked, grounds)?)),
    }
}

/// The same, whatever the form is.
fn behind<C: Checks>(
    alloc: Global,
    asked: &Verification<C>,
    grounds: &Grounds,
) -> Result<Evidence, AllocError>
    requires { AreGrounds (C.panel asked.now.checks.now) asked.now.inputs.now grounds.now }
    ensures { IfOk result
        (IsBehind (C.panel asked.now.checks.now) asked.now.vouched.now asked.now.inputs.now) }
{
    evidence_of(alloc, asked.inputs, grounds, asked.checks, asked.vouched)
}
