//! What the words ask of a verification.
ghost use Rattle.std.specs.Prelude.{◌≡◌, IfOk};
ghost use Rattle.it_program.specs.Commands.{form_asked, report_asked};

use it_base::text::Text;
use it_disk::Fault;
use it_json_report::form::ReportForm;
use it_verify_command::output_form::{OutputForm, SummaryNames};
use it_words::words::form::{AskedOutput, Form};
use it_words::words::verify_words::VerifyWords;
use std::alloc::{AllocError, Global};

/// What is asked of a verification.
#[derive(Drop)]
pub(crate) struct Asked {
    /// The form of its output.
    pub(crate) form: OutputForm,
    /// Whether nothing is accepted against which findings stand.
    pub(crate) strict: bool,
}

impl Asked {
    /// What the words ask.
    pub(crate) fn by(alloc: Global, words: &VerifyWords) -> Result<Asked, Fault>
        ensures form { IfOk result (λ asked. asked.form ≡ form_asked words.now.output) }
        ensures strict { IfOk result (λ asked. asked.strict ≡ words.now.strict) }
    {
        Ok(Asked {
            form: form_asked(alloc, &words.output)?,
            strict: words.strict,
        })
    }
}

/// The form that is asked for.
fn form_asked(alloc: Global, output: &AskedOutput) -> Result<OutputForm, AllocError>
    ensures { IfOk result (λ form. form ≡ form_asked output.now) }
{
    match output {
        AskedOutput::Report(form) => Ok(report_asked(*form)),
        AskedOutput::Summary(words) => Ok(OutputForm::Summary(SummaryNames {
            verifier: Text::copy(alloc, words.verifier.as_str())?,
            resource: Text::copy(alloc, words.resource.as_str())?,
        })),
    }
}

/// The form of the report that is asked for.
fn report_asked(form: Form) -> OutputForm
    ensures { result ≡ report_asked form }
{
    match form {
        Form::Lines => OutputForm::Report(ReportForm::Lines),
        Form::Json => OutputForm::Report(ReportForm::Json),
        Form::Full => OutputForm::Full,
    }
}
