//! The report of a verdict as JSON, with what is found and noted.
ghost use Rattle.std.specs.Prelude.{◌≡◌, ◌++◌, ◌∷◌, [], IfOk, OnOk, codes};
ghost use Rattle.it_json_report.specs.FullReport.{accepted_members, beside_members};
ghost use Rattle.it_json_report.specs.FullReport.{evidence_members, finding_object};
ghost use Rattle.it_json_report.specs.FullReport.{findings_json_of, full_json_of, json_bool};
ghost use Rattle.it_json_report.specs.FullReport.{notes_members};
ghost use Rattle.it_json_report.specs.Json.{further, json_list, json_text, member, opened};
ghost use Rattle.it_json_report.specs.JsonReport.{sublayout_object};

use crate::evidence::Evidence;
use crate::evidence_items::push_evidence;
use crate::lists::JsonItem;
use crate::members::{push_list_member, push_member_name, push_shown_member, push_text_member};
use crate::reporting::opened_report;
use crate::texts::{push_shown, push_text};
use it_base::sequence::Sequence;
use it_base::text::Text;
use it_report::verdict::Verdict;
use std::alloc::{AllocError, Global};

/// Something that is found in a policy, a layout or a list of digests.
#[derive(Drop)]
pub struct ReportFinding {
    /// The document: `policy`, `layout`, or `sums` and `sums512` for the lists of digests.
    pub document: Text,
    /// The sublayouts down to the layout that it is in, the outermost first, as a refusal has them.
    /// Empty for every other document, and for the outermost layout.
    pub at: Sequence<(Text, Text)>,
    /// The name of the finding.
    pub name: Text,
    /// The place in the document, as a JSON pointer (RFC 6901).
    pub place: Sequence<u8>,
    /// What is found, as a sentence in ASCII.
    pub sentence: Sequence<u8>,
}

/// What stands beside a verdict.
#[derive(Drop)]
pub struct Beside {
    /// What is found; it is written where the verdict accepts.
    pub findings: Sequence<ReportFinding>,
    /// What stands behind the verdict; it is written where the verdict accepts.
    pub evidence: Option<Evidence>,
    /// The notes, a line each.
    pub notes: Sequence<Sequence<u8>>,
    /// Whether these are all notes that there are: false where memory was refused for them.
    pub complete: bool,
}

/// The report of a verdict as `json_report` writes it, in whose object further members follow: what
/// is found and what stands behind it, where the verdict accepts, and the notes.
///
/// # Errors
///
/// `AllocError` where memory was refused.
pub fn full_json_report(
    alloc: Global,
    verdict: &Verdict,
    beside: &Beside,
) -> Result<Vec<u8>, AllocError>
    ensures { IfOk result (λ bytes. bytes.items ≡ full_json_of verdict.now beside.now) }
{
    let mut json = opened_report(alloc, verdict)?;
    push_beside(alloc, &mut json, verdict, beside)?;
    json.extend_from_slice(b"}\n")?;
    Ok(json)
}

/// What is found against a delivery that would be accepted otherwise, as one JSON object on one
/// line, with a line feed at its end. Its first member, `error`, is `findings`; it has no notes.
///
/// # Errors
///
/// `AllocError` where memory was refused.
pub fn findings_json(alloc: Global, findings: &[ReportFinding]) -> Result<Vec<u8>, AllocError>
    ensures { IfOk result (λ bytes. bytes.items ≡ findings_json_of findings.now) }
{
    let mut json = Vec::from_slice(alloc, b"{\"error\":\"findings\"")?;
    push_list_member(alloc, &mut json, "findings", findings)?;
    json.extend_from_slice(b",\"notes\":[],\"notesComplete\":true}\n")?;
    Ok(json)
}

fn push_beside(
    alloc: Global,
    json: &mut Vec<u8>,
    verdict: &Verdict,
    beside: &Beside,
) -> Result<(), AllocError>
    ensures { OnOk result (json.new.items ≡ json.old.items
        ++ further member (beside_members verdict.now beside.now)) }
{
    let findings = beside.findings.as_slice();
    push_accepted(alloc, json, verdict, findings, &beside.evidence)?;
    push_notes(alloc, json, beside.notes.as_slice(), beside.complete)
}

fn push_accepted(
    alloc: Global,
    json: &mut Vec<u8>,
    verdict: &Verdict,
    findings: &[ReportFinding],
    evidence: &Option<Evidence>,
) -> Result<(), AllocError>
    ensures { OnOk result (json.new.items ≡ json.old.items
        ++ further member (accepted_members verdict.now findings.now evidence.now)) }
{
    match verdict {
        Verdict::Accepted { .. } => push_findings(alloc, json, findings, evidence),
        Verdict::Refused(_) => Ok(()),
    }
}

/// Appends the members of what is found and of what stands behind the verdict.
fn push_findings(
    alloc: Global,
    json: &mut Vec<u8>,
    findings: &[ReportFinding],
    evidence: &Option<Evidence>,
) -> Result<(), AllocError>
    ensures { OnOk result (json.new.items ≡ json.old.items ++ further member
        ((codes "findings", json_list finding_object findings.now)
        ∷ evidence_members evidence.now)) }
{
    push_list_member(alloc, json, "findings", findings)?;
    push_told(alloc, json, evidence)
}

/// Appends the member of what stands behind the verdict, where that is told.
fn push_told(
    alloc: Global,
    json: &mut Vec<u8>,
    evidence: &Option<Evidence>,
) -> Result<(), AllocError>
    ensures { OnOk result (json.new.items ≡ json.old.items
        ++ further member (evidence_members evidence.now)) }
{
    match evidence {
        Some(evidence) => {
            push_member_name(json, "evidence")?;
            push_evidence(alloc, json, evidence)
        }
        None => Ok(()),
    }
}

fn push_notes(
    alloc: Global,
    json: &mut Vec<u8>,
    notes: &[Sequence<u8>],
    complete: bool,
) -> Result<(), AllocError>
    ensures { OnOk result (json.new.items ≡ json.old.items
        ++ further member (notes_members notes.now complete)) }
{
    push_list_member(alloc, json, "notes", notes)?;
    push_bool_member(json, "notesComplete", complete)
}

fn push_bool_member(json: &mut Vec<u8>, name: &str, value: bool) -> Result<(), AllocError>
    ensures { OnOk result (json.new.items
        ≡ json.old.items ++ (codes "," ++ member (name.now, json_bool value))) }
{
    push_member_name(json, name)?;
    json.extend_from_slice(bool_form(value).as_bytes())
}

fn bool_form(value: bool) -> &'static str
    ensures { result.now ≡ json_bool value }
{
    if value { "true" } else { "false" }
}

impl JsonItem for ReportFinding {
    ghost form = { finding_object };

    fn push_item(&self, alloc: Global, json: &mut Vec<u8>) -> Result<(), AllocError> {
        push_finding(alloc, json, self)
    }
}

fn push_finding(
    alloc: Global,
    json: &mut Vec<u8>,
    finding: &ReportFinding,
) -> Result<(), AllocError>
    ensures { OnOk result (json.new.items ≡ json.old.items ++ finding_object finding.now) }
{
    let (place, sentence) = (finding.place.as_slice(), finding.sentence.as_slice());
    push_document(
        alloc,
        json,
        finding.document.as_str(),
        finding.at.as_slice(),
    )?;
    push_place(json, finding.name.as_str(), place, sentence)?;
    Ok(())
}

/// The beginning of the object of a finding.
fn push_document(
    alloc: Global,
    json: &mut Vec<u8>,
    document: &str,
    at: &[(Text, Text)],
) -> Result<(), AllocError>
    ensures { OnOk result (json.new.items ≡ json.old.items ++ opened
        ((codes "document", json_text document.now)
        ∷ (codes "at", json_list sublayout_object at.now) ∷ [])) }
{
    json.extend_from_slice(b"{\"document\":")?;
    push_text(json, document)?;
    push_list_member(alloc, json, "at", at)
}

/// The end of the object of a finding.
fn push_place(
    json: &mut Vec<u8>,
    name: &str,
    place: &[u8],
    sentence: &[u8],
) -> Result<(), AllocError>
    ensures { OnOk result (json.new.items ≡ json.old.items ++ (further member
        ((codes "name", json_text name.now) ∷ (codes "place", json_text place.now)
        ∷ (codes "sentence", json_text sentence.now) ∷ [])
        ++ codes "}")) }
{
    push_text_member(json, "name", name)?;
    push_shown_member(json, "place", place)?;
    push_shown_member(json, "sentence", sentence)?;
    json.push(b'}')?;
    Ok(())
}

impl JsonItem for Sequence<u8> {
    ghost form = { json_text };

    /// A line, as a text.
    fn push_item(&self, _alloc: Global, json: &mut Vec<u8>) -> Result<(), AllocError> {
        push_shown(json, self.as_slice())
    }
}
