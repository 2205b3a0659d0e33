//! `itv check`: what is found in a policy and in a layout.
ghost use Rattle.std.specs.Prelude.{◌≡◌, ◌++◌, IfErr, IfOk, IsErrOf, OnOk};
ghost use Rattle.std.specs.Prelude.{if◌then◌else◌};
ghost use Rattle.std.specs.Io.KnownBytes.{Appends};
ghost use Rattle.std.specs.Option.{option_copied};
ghost use Rattle.it_base.specs.Writing.{AppendsBeginning};
ghost use Rattle.it_check.specs.CheckOutput.{IsCheckOutput, Tells};
ghost use Rattle.it_check.specs.CheckOutput.{first_line, is_good, layout_read, layout_reads};
ghost use Rattle.it_check.specs.CheckOutput.{layout_text, policy_reads, policy_text};
ghost use Rattle.it_report.specs.Report.{report_of};
ghost use Rattle.it_report.specs.declared.verdict.Verdict.TheVariants.{Refused as refused_for};
ghost use Rattle.it_outcome.specs.Outcome.{IsOutputFault};

use crate::documents::{LayoutReading, PolicyReading, Readings, layout_given, policy_given};
use crate::finding_lines::push_findings;
use crate::found::{found_in_layout, found_in_policy};
use crate::part_notes::write_part_notes;
use crate::writing::push_text;
use it_base::sequence::Sequence;
use it_docs::layout::Layout;
use it_findings::finding::Finding;
use it_outcome::output::{Output, put};
use it_outcome::{RunFault, Status};
use it_report::refusal::Refusal;
use it_report::refused_report;
use std::alloc::{AllocError, Global};
use std::io::Write;

/// Writes what is found in a policy and in a layout, each where it is given, the layout in its
/// envelope or as the body itself: a line for each of the first 40 findings of a document, and how
/// many there are where there are more. Where there is a layout, the first line says that no
/// signature is looked at. In place of the findings of a document that does not read, the report of
/// that refusal is written, and what is wrong with it goes to `notes`, as far as memory suffices
/// and it can be written.
///
/// The answer is `Good` where every document that is given reads, and nothing is found, and
/// otherwise `Refused`.
///
/// # Errors
///
/// `Write` where the output could not be written; a beginning of it went out. `OutOfMemory` where
/// memory was refused; nothing went out.
pub fn run_check<W: Write, N: Write>(
    alloc: Global,
    policy: &Option<Sequence<u8>>,
    layout: &Option<Sequence<u8>>,
    out: &mut W,
    notes: &mut N,
) -> Result<Status, RunFault>
    ensures ok { IfOk result (λ status. (text : _)
        × IsCheckOutput policy.now layout.now text status
        × Appends (W.contents out.old) (W.contents out.new) text) }
    ensures write { IsErrOf result RunFault.Write → (text : _) × (status : _)
        × IsCheckOutput policy.now layout.now text status
        × AppendsBeginning (W.contents out.old) (W.contents out.new) text }
    ensures memory { IsErrOf result RunFault.OutOfMemory → out.new ≡ out.old }
    ensures faults { IfErr result IsOutputFault }
{
    let checked = check_documents(alloc, policy, layout)?;
    let outcome = put(out, &checked.output);
    if outcome.is_ok() {
        write_part_notes(alloc, policy, layout, &checked.readings, notes);
    }
    outcome
}

/// What the command writes and finds, and what the documents read as.
#[derive(Drop)]
struct Checked {
    /// What it writes and finds.
    output: Output,
    /// What the documents read as.
    readings: Readings,
}

/// Reads the documents, and says what the command writes and finds.
fn check_documents(
    alloc: Global,
    policy: &Option<Sequence<u8>>,
    layout: &Option<Sequence<u8>>,
) -> Result<Checked, AllocError>
    ensures { IfOk result (λ checked. IsCheckOutput policy.now layout.now
        checked.output.text.items checked.output.status) }
{
    let policy = policy_given(alloc, policy)?;
    let layout = layout_given(alloc, layout)?;
    let output = output_of(alloc, &policy, &layout)?;
    let readings = Readings { policy, layout };
    Ok(Checked { output, readings })
}

/// What is written and found where the documents read so.
fn output_of(
    alloc: Global,
    policy: &Option<PolicyReading>,
    layout: &Option<LayoutReading>,
) -> Result<Output, AllocError>
    ensures { IfOk result
        (λ output. Tells policy.now layout.now output.text.items output.status) }
{
    let of_policy = found_in_policy(alloc, layout_read(layout), policy)?;
    let of_layout = found_in_layout(alloc, layout)?;
    let of_policy = of_policy.as_slice();
    let of_layout = of_layout.as_slice();
    let text = text_of(alloc, policy, layout, of_policy, of_layout)?;
    let status = status_of(is_good(policy, layout, of_policy, of_layout));
    Ok(Output { text, status })
}

/// What is written of these documents, in which this is found.
fn text_of(
    alloc: Global,
    policy: &Option<PolicyReading>,
    layout: &Option<LayoutReading>,
    of_policy: &[Finding],
    of_layout: &[Finding],
) -> Result<Vec<u8>, AllocError>
    ensures { IfOk result (λ text. text.items ≡ first_line layout.now
        ++ (policy_text policy.now of_policy.now ++ layout_text layout.now of_layout.now)) }
{
    let mut text = Vec::new(alloc);
    push_first_line(&mut text, layout)?;
    push_policy(&mut text, policy, of_policy)?;
    push_layout(&mut text, layout, of_layout)?;
    Ok(text)
}

/// Whether every document that is given reads, and nothing is found.
fn is_good(
    policy: &Option<PolicyReading>,
    layout: &Option<LayoutReading>,
    of_policy: &[Finding],
    of_layout: &[Finding],
) -> bool
    ensures { result ≡ is_good policy.now layout.now of_policy.now of_layout.now }
{
    policy_reads(policy) && layout_reads(layout) && of_policy.is_empty() && of_layout.is_empty()
}

fn status_of(good: bool) -> Status
    ensures { result ≡ if good then Status.Good else Status.Refused }
{
    if good { Status::Good } else { Status::Refused }
}

/// The layout, where one was read.
fn layout_read(layout: &Option<LayoutReading>) -> Option<&Layout>
    ensures { option_copied result ≡ layout_read layout.now }
{
    match layout {
        Some(LayoutReading::Read { layout, .. }) => Some(layout),
        _ => None,
    }
}

fn policy_reads(policy: &Option<PolicyReading>) -> bool
    ensures { result ≡ policy_reads policy.now }
{
    !matches!(policy, Some(PolicyReading::Bad(_)))
}

fn layout_reads(layout: &Option<LayoutReading>) -> bool
    ensures { result ≡ layout_reads layout.now }
{
    !matches!(layout, Some(LayoutReading::Bad(_)))
}

fn push_first_line(text: &mut Vec<u8>, layout: &Option<LayoutReading>) -> Result<(), AllocError>
    ensures { OnOk result (text.new.items ≡ text.old.items ++ first_line layout.now) }
{
    match layout {
        None => Ok(()),
        Some(_) => push_text(text, "layout: no signature is looked at\n"),
    }
}

fn push_policy(
    text: &mut Vec<u8>,
    policy: &Option<PolicyReading>,
    found: &[Finding],
) -> Result<(), AllocError>
    ensures { OnOk result (text.new.items ≡ text.old.items ++ policy_text policy.now found.now) }
{
    match policy {
        None => Ok(()),
        Some(PolicyReading::Read { .. }) => push_findings(text, "policy", found),
        Some(PolicyReading::Bad(refusal)) => push_refused(text, refusal),
    }
}

fn push_layout(
    text: &mut Vec<u8>,
    layout: &Option<LayoutReading>,
    found: &[Finding],
) -> Result<(), AllocError>
    ensures { OnOk result (text.new.items ≡ text.old.items ++ layout_text layout.now found.now) }
{
    match layout {
        None => Ok(()),
        Some(LayoutReading::Read { .. }) => push_findings(text, "layout", found),
        Some(LayoutReading::Bad(refusal)) => push_refused(text, refusal),
    }
}

/// Appends the report of a refusal.
fn push_refused(text: &mut Vec<u8>, refusal: &Refusal) -> Result<(), AllocError>
    ensures { OnOk result
        (text.new.items ≡ text.old.items ++ report_of (refused_for refusal.now)) }
{
    let alloc = *text.allocator();
    let report = refused_report(alloc, refusal)?;
    text.extend_from_slice(report.as_slice())
}
