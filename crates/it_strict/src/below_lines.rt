//! What is found in sublayouts, as lines.
ghost use Rattle.std.specs.Prelude.{◌≡◌, ◌++◌, OnOk, take};
ghost use Rattle.std.specs.List.{flat_map};
ghost use Rattle.it_check.specs.FindingLine.{start_form};
ghost use Rattle.it_check.specs.FindingName.{name_of};
ghost use Rattle.it_check.specs.FindingPlace.{pointer_of};
ghost use Rattle.it_strict.specs.BelowText.{all_below_text, below_document, below_text};
ghost use Rattle.it_strict.specs.BelowText.{more_below, placed_line};

use crate::below::FoundBelow;
use it_base::text::Text;
use it_check::pointer_form::PointerForm;
use it_check::{MOST_WRITTEN, finding_name, push_more, push_pointer, push_sentence, push_text};
use it_findings::finding::Finding;
use it_report::place::push_place;
use std::alloc::AllocError;

/// Appends the lines of what is found in sublayouts: of each the first 40, and how many there are
/// where there are more.
pub(crate) fn push_all_below(text: &mut Vec<u8>, all: &[FoundBelow]) -> Result<(), AllocError>
    ensures { OnOk result (text.new.items ≡ text.old.items ++ all_below_text all.now) }
{
    for below in all {
        push_below(text, below)?;
    }
    Ok(())
}

#[tactic(auto, unfolding(crate::specs::BelowText::below_text))]
fn push_below(text: &mut Vec<u8>, below: &FoundBelow) -> Result<(), AllocError>
    ensures { OnOk result (text.new.items ≡ text.old.items ++ below_text below.now) }
{
    let (at, findings) = (below.at.as_slice(), below.findings.as_slice());
    push_first(text, at, findings)?;
    push_more_below(text, at, findings.len())
}

/// Appends the lines of the first 40 findings.
fn push_first(
    text: &mut Vec<u8>,
    at: &[(Text, Text)],
    findings: &[Finding],
) -> Result<(), AllocError>
    ensures { OnOk result
        (text.new.items ≡ text.old.items ++ flat_map (placed_line at.now) (take 40 findings.now)) }
{
    if findings.len() > MOST_WRITTEN {
        push_each(text, at, &findings[..MOST_WRITTEN])
    } else {
        push_each(text, at, findings)
    }
}

fn push_each(
    text: &mut Vec<u8>,
    at: &[(Text, Text)],
    findings: &[Finding],
) -> Result<(), AllocError>
    ensures { OnOk result
        (text.new.items ≡ text.old.items ++ flat_map (placed_line at.now) findings.now) }
{
    for finding in findings {
        push_placed_finding(text, at, finding)?;
    }
    Ok(())
}

/// Appends how many findings a sublayout has, in a line, where there are more than are written.
#[tactic(auto, unfolding(it_check::specs::FindingLine::count_form))]
fn push_more_below(text: &mut Vec<u8>, at: &[(Text, Text)], count: usize) -> Result<(), AllocError>
    ensures { OnOk result (text.new.items ≡ text.old.items ++ more_below at.now count) }
{
    if count > MOST_WRITTEN {
        push_document(text, at)?;
        push_more(text, "", count)
    } else {
        Ok(())
    }
}

/// Appends the line of a finding in the sublayout at a place, which ends with a line feed: as
/// `push_finding` writes it, with the place after the document. `at` has the sublayouts down to it,
/// the outermost first.
///
/// # Errors
///
/// `AllocError` where memory was refused; a part of the line may have been appended then.
#[tactic(auto, unfolding(it_check::specs::FindingLine::line_form))]
pub fn push_placed_finding(
    text: &mut Vec<u8>,
    at: &[(Text, Text)],
    finding: &Finding,
) -> Result<(), AllocError>
    ensures { OnOk result (text.new.items ≡ text.old.items ++ placed_line at.now finding.now) }
{
    push_start_of(text, at, finding)?;
    push_sentence(text, finding)?;
    push_text(text, "\n")
}

/// Appends the beginning of the line of a finding.
#[tactic(auto, unfolding(it_check::specs::FindingLine::start_form))]
fn push_start_of(
    text: &mut Vec<u8>,
    at: &[(Text, Text)],
    finding: &Finding,
) -> Result<(), AllocError>
    ensures { OnOk result (text.new.items ≡ text.old.items
        ++ start_form (below_document at.now) (name_of finding.now)
        (pointer_of PointerForm.Shown finding.now)) }
{
    push_document(text, at)?;
    push_text(text, " ")?;
    push_text(text, finding_name(finding))?;
    push_text(text, " ")?;
    push_pointer(text, PointerForm::Shown, finding)?;
    push_text(text, ": ")
}

/// Appends how a sublayout is named as a document.
#[tactic(auto, unfolding(crate::specs::BelowText::below_document))]
pub(crate) fn push_document(text: &mut Vec<u8>, at: &[(Text, Text)]) -> Result<(), AllocError>
    ensures { OnOk result (text.new.items ≡ text.old.items ++ below_document at.now) }
{
    push_text(text, "layout at ")?;
    push_place(text, at)
}
