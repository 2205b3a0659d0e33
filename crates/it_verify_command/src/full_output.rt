//! The report as JSON, with what is found and noted and what stands behind it.
ghost use Rattle.std.specs.Prelude.{◌≡◌, [], IfOk, MatchBool, MatchOption};
ghost use Rattle.it_evidence.specs.Evidence.{IsBehind};
ghost use Rattle.it_verify.specs.Verdict.{OnAccepted};
ghost use Rattle.it_verify_command.specs.FullOutput.{AreFindings, AreNotes, IsFullText};
ghost use Rattle.it_verify_command.specs.FullOutput.{without_feed};
ghost use Rattle.it_notes.specs.Known.{IsTold};

use crate::shown_findings::shown_in_documents;
use crate::told_lines::told_lines;
use crate::verification::Verification;
use it_base::sequence::Sequence;
use it_dsse::checks::Checks;
use it_json_report::evidence::Evidence;
use it_json_report::full::{Beside, ReportFinding, full_json_report};
use it_notes::known::Told;
use it_report::verdict::Verdict;
use std::alloc::{AllocError, Global};

/// The report of the verdict as JSON, with what is found in the documents of an accepted delivery
/// and what stands behind it, and with the notes, or with none where memory was refused for them.
pub(crate) fn full_text<C: Checks>(
    alloc: Global,
    asked: &Verification<C>,
    told: &Told,
    behind: Option<Evidence>,
) -> Result<Vec<u8>, AllocError>
    requires told { IsTold (C.panel asked.now.checks.now) asked.now.inputs.now told.now }
    requires behind { OnAccepted told.now.verdict (MatchOption behind ⊥
        (IsBehind (C.panel asked.now.checks.now) asked.now.vouched.now asked.now.inputs.now)) }
    ensures { IfOk result (λ text. IsFullText (C.panel asked.now.checks.now)
        asked.now.vouched.now asked.now.inputs.now told.now.verdict text.items) }
{
    let beside = beside(alloc, asked, told, behind)?;
    full_json_report(alloc, &told.verdict, &beside)
}

/// What stands beside the verdict.
fn beside<C: Checks>(
    alloc: Global,
    asked: &Verification<C>,
    told: &Told,
    behind: Option<Evidence>,
) -> Result<Beside, AllocError>
    requires { IsTold (C.panel asked.now.checks.now) asked.now.inputs.now told.now }
    ensures findings { IfOk result (λ beside. OnAccepted told.now.verdict
        (AreFindings (C.panel asked.now.checks.now) asked.now.inputs.now beside.findings)) }
    ensures evidence { IfOk result (λ beside. beside.evidence ≡ behind) }
    ensures notes { IfOk result (λ beside. MatchBool beside.complete
        (AreNotes (C.panel asked.now.checks.now) asked.now.inputs.now told.now.verdict beside.notes)
        (beside.notes ≡ [])) }
{
    let findings = findings(alloc, told)?;
    let (notes, complete) = match notes(alloc, asked, told) {
        Ok(notes) => (notes, true),
        Err(_) => (Vec::new(alloc), false),
    };
    Ok(Beside {
        findings,
        evidence: behind,
        notes: Sequence::from(notes),
        complete,
    })
}

/// The lines of the notes, without their line feeds.
fn notes<C: Checks>(
    alloc: Global,
    asked: &Verification<C>,
    told: &Told,
) -> Result<Vec<Sequence<u8>>, AllocError>
    requires { IsTold (C.panel asked.now.checks.now) asked.now.inputs.now told.now }
    ensures { IfOk result (λ lines. AreNotes (C.panel asked.now.checks.now)
        asked.now.inputs.now told.now.verdict lines.items) }
{
    let lines = told_lines(alloc, asked, told)?.into_lines()?;
    let mut texts = Vec::with_capacity(alloc, lines.len())?;
    for line in lines.as_slice() {
        texts.push(unended(alloc, line.as_slice())?)?;
    }
    Ok(texts)
}

/// A line without its line feed.
fn unended(alloc: Global, line: &[u8]) -> Result<Sequence<u8>, AllocError>
    ensures { IfOk result (λ text. text ≡ without_feed line.now) }
{
    let end = line.len().saturating_sub(1);
    Ok(Sequence::from(line[..end].to_vec(alloc)?))
}

/// What is found in the documents, where the verdict accepts; otherwise nothing.
fn findings(alloc: Global, told: &Told) -> Result<Sequence<ReportFinding>, AllocError>
    ensures { (panel : _) (inputs : _) → IsTold panel inputs told.now → IfOk result
        (λ findings. OnAccepted told.now.verdict (AreFindings panel inputs findings)) }
{
    match (&told.verdict, &told.found) {
        (Verdict::Refused(_), _) => Ok(Sequence::from(Vec::new(alloc))),
        (Verdict::Accepted { .. }, Some(found)) => shown_in_documents(alloc, found),
        (Verdict::Accepted { .. }, None) => Err(AllocError),
    }
}
