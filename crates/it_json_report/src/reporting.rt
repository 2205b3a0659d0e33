//! The report of a verdict as JSON.
ghost use Rattle.std.specs.Prelude.{◌≡◌, IfOk};
ghost use Rattle.it_report.specs.declared.verdict.Verdict.TheVariants.{Accepted, Refused};
ghost use Rattle.it_json_report.specs.Json.{opened};
ghost use Rattle.it_json_report.specs.JsonReport.{json_of, members_of};

use crate::fault_members::push_fault;
use crate::lists::push_list;
use crate::members::{push_member_name, push_number_member, push_text_member};
use it_base::text::Text;
use it_report::refusal::Refusal;
use it_report::verdict::Verdict;
use std::alloc::{AllocError, Global};

/// The report of a verdict as one JSON object (RFC 8259) on one line, with a line feed at its end.
/// Its first member, `verdict`, is `accepted` or `refused`. Then come the steps with their numbers
/// of keys and the files, or the number and the name of the fault, where it is, and its details.
///
/// # Errors
///
/// `AllocError` where memory was refused.
pub fn json_report(alloc: Global, verdict: &Verdict) -> Result<Vec<u8>, AllocError>
    ensures { IfOk result (λ bytes. bytes.items ≡ json_of verdict.now) }
{
    let mut json = opened_report(alloc, verdict)?;
    json.extend_from_slice(b"}\n")?;
    Ok(json)
}

/// The object up to the members of the verdict, behind which it can go on.
pub(crate) fn opened_report(alloc: Global, verdict: &Verdict) -> Result<Vec<u8>, AllocError>
    ensures { IfOk result (λ bytes. bytes.items ≡ opened (members_of verdict.now)) }
{
    match verdict {
        Verdict::Accepted { steps, files } => {
            opened_accepted(alloc, steps.as_slice(), files.as_slice())
        }
        Verdict::Refused(refusal) => opened_refused(alloc, refusal),
    }
}

fn opened_accepted(
    alloc: Global,
    steps: &[(Text, u64)],
    files: &[Text],
) -> Result<Vec<u8>, AllocError>
    ensures { IfOk result
        (λ bytes. bytes.items ≡ opened (members_of (Accepted steps.now files.now))) }
{
    let mut json = Vec::from_slice(alloc, b"{\"verdict\":\"accepted\"")?;
    push_member_name(&mut json, "steps")?;
    push_list(alloc, &mut json, steps)?;
    push_member_name(&mut json, "files")?;
    push_list(alloc, &mut json, files)?;
    Ok(json)
}

fn opened_refused(alloc: Global, refusal: &Refusal) -> Result<Vec<u8>, AllocError>
    ensures { IfOk result (λ bytes. bytes.items ≡ opened (members_of (Refused refusal.now))) }
{
    let mut json = Vec::from_slice(alloc, b"{\"verdict\":\"refused\"")?;
    push_number_member(alloc, &mut json, "number", refusal.number() as u64)?;
    push_text_member(&mut json, "name", refusal.name())?;
    push_member_name(&mut json, "at")?;
    push_list(alloc, &mut json, refusal.at.as_slice())?;
    push_fault(alloc, &mut json, &refusal.fault)?;
    Ok(json)
}
