//! The telling of what is found against a delivery.
ghost use Rattle.std.specs.Prelude.{◌≡◌, ◌≢◌, IfErr, IsErrOf, OnOk};
ghost use Rattle.std.specs.Io.KnownBytes.{Appends};
ghost use Rattle.it_base.specs.Writing.{AppendsBeginning};
ghost use Rattle.it_json_report.specs.FullReport.{findings_json_of};
ghost use Rattle.it_strict.specs.FoundText.{found_text};
ghost use Rattle.it_verify_command.specs.FoundOutput.{AreTold, found_in, found_shown};

use crate::output_form::OutputForm;
use crate::shown_found::shown_found;
use it_base::writing::write_all_of;
use it_json_report::full::findings_json;
use it_outcome::RunFault;
use it_outcome::output::put_text;
use it_strict::found::Found;
use std::alloc::{AllocError, Global};
use std::io::Write;

/// Tells what is found: in the full form as the output, and otherwise by lines among the notes, as
/// far as these can be written.
pub(crate) fn tell_found<W: Write, N: Write>(
    alloc: Global,
    found: &Found,
    form: &OutputForm,
    out: &mut W,
    notes: &mut N,
) -> Result<(), RunFault>
    ensures ok { OnOk result (AreTold form.now (W.contents out.old) (W.contents out.new)
        (N.contents notes.old) (N.contents notes.new) (found_in form.now found.now)) }
    ensures write { IsErrOf result RunFault.Write → (form.now ≡ OutputForm.Full)
        × AppendsBeginning (W.contents out.old) (W.contents out.new) (found_in form.now found.now) }
    ensures kept { IfErr result (λ fault. fault ≢ RunFault.Write → out.new ≡ out.old) }
    ensures lines { form.now ≢ OutputForm.Full → out.new ≡ out.old }
{
    match form {
        OutputForm::Report(_) => Ok(write_lines(alloc, found, notes)?),
        OutputForm::Full => write_object(alloc, found, out),
        OutputForm::Summary(_) => Ok(write_lines(alloc, found, notes)?),
    }
}

/// Writes the lines of what is found, as far as they can be written.
fn write_lines<N: Write>(alloc: Global, found: &Found, notes: &mut N) -> Result<(), AllocError>
    ensures { OnOk result (AppendsBeginning (N.contents notes.old) (N.contents notes.new)
        (found_text found.now)) }
{
    let mut text = Vec::new(alloc);
    found.push_lines(&mut text)?;
    let _ = write_all_of(notes, text.as_slice());
    Ok(())
}

/// Writes what is found as one JSON object.
fn write_object<W: Write>(alloc: Global, found: &Found, out: &mut W) -> Result<(), RunFault>
    ensures ok { OnOk result (Appends (W.contents out.old) (W.contents out.new)
        (findings_json_of (found_shown found.now))) }
    ensures write { IsErrOf result RunFault.Write
        → AppendsBeginning (W.contents out.old) (W.contents out.new)
        (findings_json_of (found_shown found.now)) }
    ensures kept { IfErr result (λ fault. fault ≢ RunFault.Write → out.new ≡ out.old) }
{
    let findings = shown_found(alloc, found)?;
    let text = findings_json(alloc, findings.as_slice())?;
    put_text(out, text.as_slice())?;
    Ok(())
}
