//! What is found, as it is written in JSON.
ghost use Rattle.std.specs.Prelude.{◌≡◌, ◌++◌, IfOk, OnOk, map};
ghost use Rattle.std.specs.List.{flat_map};
ghost use Rattle.it_verify_command.specs.FullOutput.{all_shown, shown_below, shown_finding};

use it_base::sequence::Sequence;
use it_base::text::Text;
use it_check::pointer_form::PointerForm;
use it_check::{finding_document, finding_name, push_pointer, push_sentence};
use it_findings::finding::Finding;
use it_json_report::full::ReportFinding;
use it_nonces::copied_place;
use it_notes::found_in_documents::FoundInDocuments;
use it_strict::below::FoundBelow;
use std::alloc::{AllocError, Global};

/// What is found in the documents: in the policy and in the layout, and then in the sublayouts.
pub(crate) fn shown_in_documents(
    alloc: Global,
    found: &FoundInDocuments,
) -> Result<Sequence<ReportFinding>, AllocError>
    ensures { IfOk result (λ findings. findings ≡ all_shown found.now) }
{
    let mut findings = Vec::new(alloc);
    push_shown(alloc, &mut findings, &[], found.of_documents.as_slice())?;
    push_below(alloc, &mut findings, found.below.as_slice())?;
    Ok(Sequence::from(findings))
}

/// Adds the findings in the sublayouts, as they are written.
pub(crate) fn push_below(
    alloc: Global,
    findings: &mut Vec<ReportFinding>,
    found: &[FoundBelow],
) -> Result<(), AllocError>
    ensures { OnOk result (findings.new.items
        ≡ findings.old.items ++ flat_map shown_below found.now) }
{
    for below in found {
        let (at, of_below) = (below.at.as_slice(), below.findings.as_slice());
        push_shown(alloc, findings, at, of_below)?;
    }
    Ok(())
}

/// Adds the findings in the layout at a place, as they are written.
pub(crate) fn push_shown(
    alloc: Global,
    findings: &mut Vec<ReportFinding>,
    at: &[(Text, Text)],
    found: &[Finding],
) -> Result<(), AllocError>
    ensures { OnOk result (findings.new.items
        ≡ findings.old.items ++ map (shown_finding at.now) found.now) }
{
    for finding in found {
        findings.push(shown_finding(alloc, at, finding)?)?;
    }
    Ok(())
}

fn shown_finding(
    alloc: Global,
    at: &[(Text, Text)],
    finding: &Finding,
) -> Result<ReportFinding, AllocError>
    ensures { IfOk result (λ shown. shown ≡ shown_finding at.now finding.now) }
{
    let mut place = Vec::new(alloc);
    push_pointer(&mut place, PointerForm::Plain, finding)?;
    let mut sentence = Vec::new(alloc);
    push_sentence(&mut sentence, finding)?;
    Ok(ReportFinding {
        document: Text::copy(alloc, finding_document(finding))?,
        at: copied_place(alloc, at)?,
        name: Text::copy(alloc, finding_name(finding))?,
        place: Sequence::from(place),
        sentence: Sequence::from(sentence),
    })
}
