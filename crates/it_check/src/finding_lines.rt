//! Findings as lines.
ghost use Rattle.std.specs.Prelude.{◌≡◌, ◌++◌, OnOk, take};
ghost use Rattle.std.specs.List.{flat_map};
ghost use Rattle.it_check.specs.FindingLine.{count_form, findings_text, line_form, line_of};
ghost use Rattle.it_check.specs.FindingLine.{more_form, start_form};
ghost use Rattle.it_check.specs.FindingName.{name_of};
ghost use Rattle.it_check.specs.FindingPlace.{document_of, pointer_of};

use crate::finding_names::finding_name;
use crate::finding_place::{finding_document, push_pointer};
use crate::finding_sentence::push_sentence;
use crate::pointer_form::PointerForm;
use crate::writing::{push_text, push_told_number};
use it_findings::finding::Finding;
use std::alloc::AllocError;

/// How many findings of a document are written.
pub const MOST_WRITTEN: usize = 40;

/// Appends the lines of what is found in the document of this name: of the first 40 findings, and
/// how many there are where there are more.
///
/// # Errors
///
/// `AllocError` where memory was refused; a part of the lines may have been appended then.
#[tactic(auto, unfolding(crate::specs::FindingLine::findings_text))]
pub fn push_findings(
    text: &mut Vec<u8>,
    document: &str,
    found: &[Finding],
) -> Result<(), AllocError>
    ensures { OnOk result
        (text.new.items ≡ text.old.items ++ findings_text document.now found.now) }
{
    push_first(text, found)?;
    push_more(text, document, found.len())
}

/// Appends the lines of the first 40 findings.
fn push_first(text: &mut Vec<u8>, found: &[Finding]) -> Result<(), AllocError>
    ensures { OnOk result
        (text.new.items ≡ text.old.items ++ flat_map line_of (take 40 found.now)) }
{
    if found.len() > MOST_WRITTEN {
        push_each(text, &found[..MOST_WRITTEN])
    } else {
        push_each(text, found)
    }
}

fn push_each(text: &mut Vec<u8>, found: &[Finding]) -> Result<(), AllocError>
    ensures { OnOk result (text.new.items ≡ text.old.items ++ flat_map line_of found.now) }
{
    for finding in found {
        push_finding(text, finding)?;
    }
    Ok(())
}

/// Appends how many findings a document has, in a line, where there are more than are written.
///
/// # Errors
///
/// `AllocError` where memory was refused; a part of the line may have been appended then.
pub fn push_more(text: &mut Vec<u8>, document: &str, count: usize) -> Result<(), AllocError>
    ensures { OnOk result (text.new.items ≡ text.old.items ++ more_form document.now count) }
{
    if count > MOST_WRITTEN {
        push_count(text, document, count)
    } else {
        Ok(())
    }
}

#[tactic(auto, unfolding(crate::specs::FindingLine::count_form))]
fn push_count(text: &mut Vec<u8>, document: &str, count: usize) -> Result<(), AllocError>
    ensures { OnOk result (text.new.items ≡ text.old.items ++ count_form document.now count) }
{
    push_text(text, document)?;
    push_told_number(text, ": 40 of ", count, " findings are written\n")
}

/// Appends the line of a finding, which ends with a line feed: the document, the name of the
/// finding, its place as a JSON pointer, a colon and a sentence. Names are written as reports write
/// them.
///
/// # Errors
///
/// `AllocError` where memory was refused; a part of the line may have been appended then.
#[tactic(auto, unfolding(crate::specs::FindingLine::line_form))]
pub fn push_finding(text: &mut Vec<u8>, finding: &Finding) -> Result<(), AllocError>
    ensures { OnOk result (text.new.items ≡ text.old.items ++ line_of finding.now) }
{
    push_start_of(text, finding)?;
    push_sentence(text, finding)?;
    push_text(text, "\n")
}

/// Appends the beginning of the line of a finding.
fn push_start_of(text: &mut Vec<u8>, finding: &Finding) -> Result<(), AllocError>
    ensures { OnOk result (text.new.items ≡ text.old.items
        ++ start_form (document_of finding.now) (name_of finding.now)
        (pointer_of PointerForm.Shown finding.now)) }
{
    let alloc = *text.allocator();
    let mut pointer = Vec::new(alloc);
    push_pointer(&mut pointer, PointerForm::Shown, finding)?;
    let document = finding_document(finding);
    push_start(text, document, finding_name(finding), pointer.as_slice())
}

/// Appends the beginning of a line: the document, the name of what is found, its place as a JSON
/// pointer, and a colon.
///
/// # Errors
///
/// `AllocError` where memory was refused; a part of it may have been appended then.
#[tactic(auto, unfolding(crate::specs::FindingLine::start_form))]
pub fn push_start(
    text: &mut Vec<u8>,
    document: &str,
    name: &str,
    pointer: &[u8],
) -> Result<(), AllocError>
    ensures { OnOk result
        (text.new.items ≡ text.old.items ++ start_form document.now name.now pointer.now) }
{
    push_text(text, document)?;
    push_text(text, " ")?;
    push_text(text, name)?;
    push_text(text, " ")?;
    text.extend_from_slice(pointer)?;
    push_text(text, ": ")
}
