//! What stands behind an accepted delivery, in JSON.
ghost use Rattle.std.specs.Prelude.{◌≡◌, ◌++◌, ◌∷◌, [], OnOk, codes, decimal};
ghost use Rattle.it_json_report.specs.EvidenceReport.{counted_form, counted_object};
ghost use Rattle.it_json_report.specs.EvidenceReport.{evidence_object, file_object, json_digits};
ghost use Rattle.it_json_report.specs.EvidenceReport.{key_form, key_object, set_members};
ghost use Rattle.it_json_report.specs.Json.{further, json_list, json_object, json_text};
ghost use Rattle.it_json_report.specs.Json.{member, opened};

use crate::digests::{push_digests, push_digits_member};
use crate::evidence::{CountedKey, Evidence, FileEvidence, StepEvidence};
use crate::lists::JsonItem;
use crate::members::{push_list_member, push_member_name, push_number_member, push_text_member};
use crate::signer_item::push_signer;
use crate::texts::push_text;
use it_base::text::Text;
use it_digest::compare::DigestSet;
use std::alloc::{AllocError, Global};

impl JsonItem for CountedKey {
    ghost form = { key_object };

    fn push_item(&self, alloc: Global, json: &mut Vec<u8>) -> Result<(), AllocError> {
        let signatures = self.signatures.as_slice();
        push_key(alloc, json, &self.id, self.files.as_slice(), signatures)
    }
}

fn push_key(
    alloc: Global,
    json: &mut Vec<u8>,
    id: &Text,
    files: &[Text],
    signatures: &[u64],
) -> Result<(), AllocError>
    ensures { OnOk result (json.new.items
        ≡ json.old.items ++ key_form id.now files.now signatures.now) }
{
    json.extend_from_slice(b"{\"keyid\":")?;
    push_text(json, id.as_str())?;
    push_list_member(alloc, json, "files", files)?;
    push_list_member(alloc, json, "signatures", signatures)?;
    json.push(b'}')?;
    Ok(())
}

impl JsonItem for StepEvidence {
    ghost form = { counted_object };

    fn push_item(&self, alloc: Global, json: &mut Vec<u8>) -> Result<(), AllocError> {
        push_step(alloc, json, &self.name, self.keys.as_slice())
    }
}

fn push_step(
    alloc: Global,
    json: &mut Vec<u8>,
    name: &Text,
    keys: &[CountedKey],
) -> Result<(), AllocError>
    ensures { OnOk result (json.new.items ≡ json.old.items ++ counted_form name.now keys.now) }
{
    json.extend_from_slice(b"{\"name\":")?;
    push_text(json, name.as_str())?;
    push_list_member(alloc, json, "keys", keys)?;
    json.push(b'}')?;
    Ok(())
}

impl JsonItem for FileEvidence {
    ghost form = { file_object };

    fn push_item(&self, alloc: Global, json: &mut Vec<u8>) -> Result<(), AllocError> {
        push_file(alloc, json, self)
    }
}

fn push_file(alloc: Global, json: &mut Vec<u8>, file: &FileEvidence) -> Result<(), AllocError>
    ensures { OnOk result (json.new.items ≡ json.old.items ++ file_object file.now) }
{
    push_delivered(alloc, json, &file.path, &file.digests)?;
    push_provenance(alloc, json, file.line, &file.builder, file.level)?;
    push_signer(alloc, json, &file.signer)?;
    Ok(())
}

/// The beginning of the object of a file.
fn push_delivered(
    alloc: Global,
    json: &mut Vec<u8>,
    path: &Text,
    digests: &DigestSet,
) -> Result<(), AllocError>
    ensures { OnOk result (json.new.items ≡ json.old.items ++ opened
        ((codes "path", json_text path.now)
        ∷ (codes "digests", json_object (set_members digests.now)) ∷ [])) }
{
    json.extend_from_slice(b"{\"path\":")?;
    push_text(json, path.as_str())?;
    push_member_name(json, "digests")?;
    push_digests(alloc, json, digests)
}

/// The members of a file's provenance.
fn push_provenance(
    alloc: Global,
    json: &mut Vec<u8>,
    line: u64,
    builder: &Text,
    level: u8,
) -> Result<(), AllocError>
    ensures { OnOk result (json.new.items ≡ json.old.items ++ further member
        ((codes "line", decimal line) ∷ (codes "builder", json_text builder.now)
        ∷ (codes "level", decimal level) ∷ [])) }
{
    push_number_member(alloc, json, "line", line)?;
    push_text_member(json, "builder", builder.as_str())?;
    push_number_member(alloc, json, "level", level as u64)?;
    Ok(())
}

/// Appends the object of what stands behind an accepted delivery.
pub(super) fn push_evidence(
    alloc: Global,
    json: &mut Vec<u8>,
    evidence: &Evidence,
) -> Result<(), AllocError>
    ensures { OnOk result (json.new.items ≡ json.old.items ++ evidence_object evidence.now) }
{
    push_documents(alloc, json, evidence)?;
    push_shown(
        alloc,
        json,
        evidence.steps.as_slice(),
        evidence.files.as_slice(),
    )?;
    Ok(())
}

/// The beginning of the object: by which documents was verified, and when.
fn push_documents(alloc: Global, json: &mut Vec<u8>, evidence: &Evidence) -> Result<(), AllocError>
    ensures { OnOk result (json.new.items ≡ json.old.items ++ opened
        ((codes "moment", json_text evidence.now.moment)
        ∷ (codes "policy", json_digits evidence.now.policy)
        ∷ (codes "layout", json_digits evidence.now.layout)
        ∷ (codes "expires", json_text evidence.now.expires) ∷ [])) }
{
    push_policy(alloc, json, &evidence.moment, &evidence.policy)?;
    push_layout(alloc, json, &evidence.layout, &evidence.expires)?;
    Ok(())
}

fn push_policy(
    alloc: Global,
    json: &mut Vec<u8>,
    moment: &Text,
    policy: &[u8; 32],
) -> Result<(), AllocError>
    ensures { OnOk result (json.new.items ≡ json.old.items ++ opened
        ((codes "moment", json_text moment.now) ∷ (codes "policy", json_digits policy.now)
        ∷ [])) }
{
    let digits = hex::encode(alloc, policy.as_slice())?;
    push_opened(json, moment.as_str(), digits.as_str())
}

fn push_opened(json: &mut Vec<u8>, moment: &str, policy: &str) -> Result<(), AllocError>
    ensures { OnOk result (json.new.items ≡ json.old.items ++ opened
        ((codes "moment", json_text moment.now) ∷ (codes "policy", json_text policy.now) ∷ [])) }
{
    json.extend_from_slice(b"{\"moment\":")?;
    push_text(json, moment)?;
    push_text_member(json, "policy", policy)?;
    Ok(())
}

fn push_layout(
    alloc: Global,
    json: &mut Vec<u8>,
    layout: &[u8; 32],
    expires: &Text,
) -> Result<(), AllocError>
    ensures { OnOk result (json.new.items ≡ json.old.items ++ further member
        ((codes "layout", json_digits layout.now) ∷ (codes "expires", json_text expires.now)
        ∷ [])) }
{
    push_digits_member(alloc, json, "layout", layout)?;
    push_text_member(json, "expires", expires.as_str())
}

/// The end of the object: what was shown for the steps and for the files.
fn push_shown(
    alloc: Global,
    json: &mut Vec<u8>,
    steps: &[StepEvidence],
    files: &[FileEvidence],
) -> Result<(), AllocError>
    ensures { OnOk result (json.new.items ≡ json.old.items ++ (further member
        ((codes "steps", json_list counted_object steps.now)
        ∷ (codes "files", json_list file_object files.now) ∷ []) ++ codes "}")) }
{
    push_list_member(alloc, json, "steps", steps)?;
    push_list_member(alloc, json, "files", files)?;
    json.push(b'}')?;
    Ok(())
}
