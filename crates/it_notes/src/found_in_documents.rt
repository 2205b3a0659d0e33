//! What is found in the policy, in the layout and in the sublayouts of a delivery that is accepted.
ghost use Rattle.std.specs.Prelude.{◌≤◌, IfOk};
ghost use Rattle.it_check.specs.FindingLine.{line_of};
ghost use Rattle.it_strict.specs.BelowText.{placed_line};
ghost use Rattle.it_verify.specs.Made.{IsMadeBy};
ghost use Rattle.it_notes.specs.FoundInDocuments.{AreFoundInDocuments};

use crate::known::{Basis, Known, Told};
use crate::lines::{Line, Lines};
use it_base::text::Text;
use it_check::push_finding;
use it_docs::rule::Rule;
use it_dsse::checks::Checks;
use it_findings::finding::{Finding, RuleList};
use it_findings::member_finding::MemberFinding;
use it_member_notes::{ends_open, rules_of_inspection, rules_of_step};
use it_strict::below::{FoundBelow, found_below};
use it_strict::found::{found_in_layout, found_in_policy};
use it_strict::push_placed_finding;
use it_verify::grounds::Grounds;
use it_verify::opened::Opened;
use std::alloc::{AllocError, Global};

/// What is found in the documents of a delivery that is accepted.
#[derive(Drop)]
pub struct FoundInDocuments {
    /// What is found in the policy, and then what is found in the layout and counts.
    pub of_documents: Vec<Finding>,
    /// What is found in each sublayout that counts, and counts there.
    pub below: Vec<FoundBelow>,
}

/// What is found in the policy, in the layout and in the sublayouts, as far as it counts, where a
/// delivery of the opened inputs is accepted on these grounds by the `checks`.
///
/// # Errors
///
/// `AllocError` where memory was refused, or where the checks refuse to check more signatures.
pub fn found_in_documents<C: Checks>(
    alloc: Global,
    opened: &Opened<'_>,
    grounds: &Grounds,
    checks: &C,
) -> Result<FoundInDocuments, AllocError>
    requires shallow { opened.now.inputs.now.depth ≤ 8 }
    requires made { IsMadeBy (C.panel checks.now) opened.now.inputs.now grounds.now.documents
        grounds.now.evidence }
    ensures { IfOk result (AreFoundInDocuments (C.panel checks.now) opened.now.inputs.now) }
{
    let documents = &grounds.documents;
    let mut found = found_in_policy(alloc, &opened.policy, documents)?;
    let mut of_layout = found_in_layout(alloc, documents, &grounds.evidence)?;
    found.append(&mut of_layout)?;
    Ok(FoundInDocuments {
        of_documents: found,
        below: found_below(alloc, opened.inputs, documents, checks)?,
    })
}

/// Adds the lines of what is found in an accepted delivery's documents, as `--strict` writes them,
/// as far as no other note says it: of sublayouts none does.
///
/// # Errors
///
/// `AllocError` where memory was refused.
pub fn add_found(lines: &mut Lines, told: &Told) -> Result<(), AllocError> {
    let (Some(found), Basis::Known(known)) = (&told.found, &told.basis) else {
        return Ok(());
    };
    for finding in found.of_documents.as_slice() {
        if !is_noted(finding, known) {
            lines.add(finding)?;
        }
    }
    for below in found.below.as_slice() {
        add_below(lines, below)?;
    }
    Ok(())
}

/// Adds the lines of what is found in a sublayout.
fn add_below(lines: &mut Lines, below: &FoundBelow) -> Result<(), AllocError> {
    let at = below.at.as_slice();
    for finding in below.findings.as_slice() {
        lines.add(&PlacedFinding { at, finding })?;
    }
    Ok(())
}

/// Something that is found in a sublayout.
#[derive(Drop)]
struct PlacedFinding<'a> {
    /// The sublayouts down to this one, the outermost first.
    at: &'a [(Text, Text)],
    /// What is found.
    finding: &'a Finding,
}

impl Line for PlacedFinding<'_> {
    ghost line = { λ placed. placed_line placed.at.now placed.finding.now };

    fn push_line(&self, text: &mut Vec<u8>) -> Result<(), AllocError> {
        push_placed_finding(text, self.at, self.finding)
    }
}

impl Line for Finding {
    ghost line = { line_of };

    fn push_line(&self, text: &mut Vec<u8>) -> Result<(), AllocError> {
        push_finding(text, self)
    }
}

/// Whether the notes on members, on rules or on key ids say it in other words.
fn is_noted(finding: &Finding, known: &Known) -> bool {
    match finding {
        Finding::Member(finding) => is_noted_member(finding),
        Finding::UnknownItem { .. } | Finding::UnknownKey { .. } => true,
        Finding::OpenRules(list) => ends_open(rules_of(list, known)),
        _ => false,
    }
}

/// Whether the notes on members say it.
fn is_noted_member(finding: &MemberFinding) -> bool {
    match finding {
        MemberFinding::Unread { .. } | MemberFinding::PrivateKey(_) => true,
        MemberFinding::Repeated { .. } => false,
    }
}

/// The rules of a list.
fn rules_of<'a>(list: &RuleList, known: &'a Known) -> &'a [Rule] {
    let layout = &known.top.signed.layout;
    match list {
        RuleList::Deliver => known.policy.deliver.as_slice(),
        RuleList::OfStep { place, side, .. } => match layout.steps.as_slice().get(*place) {
            Some(step) => rules_of_step(step, *side),
            None => &[],
        },
        RuleList::OfInspection { place, side, .. } => {
            match layout.inspections.as_slice().get(*place) {
                Some(inspection) => rules_of_inspection(inspection, *side),
                None => &[],
            }
        }
    }
}
