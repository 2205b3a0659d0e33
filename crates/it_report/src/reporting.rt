//! The report of a verdict.
ghost use Rattle.std.specs.Prelude.{◌≡◌, ◌++◌, IfOk, OnOk};
ghost use Rattle.std.specs.List.{flat_map};
ghost use Rattle.it_report.specs.Report.{file_line, report_of, step_line};
ghost use Rattle.it_report.specs.declared.verdict.Verdict.TheVariants.{Accepted, Refused};

use crate::fault_lines::push_fault;
use crate::lines::push_name_line;
use crate::name::push_name;
use crate::place::push_place_line;
use crate::refusal::Refusal;
use crate::verdict::Verdict;
use it_base::text::Text;
use std::alloc::{AllocError, Global};

/// The report of a verdict, in lines that each end with a line feed. The first line is `accepted`,
/// or `refused` with the number and the name of the fault. Then come the steps with their numbers
/// of keys and the files, or where the fault is and its details.
///
/// # Errors
///
/// `AllocError` where memory was refused.
pub fn report(alloc: Global, verdict: &Verdict) -> Result<Vec<u8>, AllocError>
    ensures { IfOk result (λ bytes. bytes.items ≡ report_of verdict.now) }
{
    match verdict {
        Verdict::Accepted { steps, files } => {
            accepted_report(alloc, steps.as_slice(), files.as_slice())
        }
        Verdict::Refused(refusal) => refused_report(alloc, refusal),
    }
}

fn accepted_report(
    alloc: Global,
    steps: &[(Text, u64)],
    files: &[Text],
) -> Result<Vec<u8>, AllocError>
    ensures { IfOk result (λ bytes. bytes.items ≡ report_of (Accepted steps.now files.now)) }
{
    let mut text = Vec::from_slice(alloc, b"accepted\n")?;
    push_steps(alloc, &mut text, steps)?;
    push_files(&mut text, files)?;
    Ok(text)
}

/// The report of a refusal.
///
/// # Errors
///
/// `AllocError` where memory was refused.
pub fn refused_report(alloc: Global, refusal: &Refusal) -> Result<Vec<u8>, AllocError>
    ensures { IfOk result (λ bytes. bytes.items ≡ report_of (Refused refusal.now)) }
{
    let number = refusal.number();
    let name = refusal.name();
    let head = format!(in alloc; "refused {number} {name}\n")?;
    let mut text = head.into_bytes();
    push_place_line(&mut text, refusal.at.as_slice())?;
    push_fault(alloc, &mut text, &refusal.fault)?;
    Ok(text)
}

fn push_steps(alloc: Global, text: &mut Vec<u8>, steps: &[(Text, u64)]) -> Result<(), AllocError>
    ensures { OnOk result (text.new.items ≡ text.old.items ++ flat_map step_line steps.now) }
{
    for step in steps {
        push_step(alloc, text, step)?;
    }
    Ok(())
}

fn push_step(alloc: Global, text: &mut Vec<u8>, step: &(Text, u64)) -> Result<(), AllocError>
    ensures { OnOk result (text.new.items ≡ text.old.items ++ step_line step.now) }
{
    let keys = step.1;
    let tail = format!(in alloc; " {keys}\n")?;
    text.extend_from_slice(b"step ")?;
    push_name(text, step.0.as_str().as_bytes())?;
    text.extend_from_slice(tail.as_bytes())?;
    Ok(())
}

fn push_files(text: &mut Vec<u8>, files: &[Text]) -> Result<(), AllocError>
    ensures { OnOk result (text.new.items ≡ text.old.items ++ flat_map file_line files.now) }
{
    for file in files {
        push_name_line(text, "file", file)?;
    }
    Ok(())
}
