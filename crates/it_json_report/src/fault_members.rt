//! What a report says about a fault, member by member.
ghost use Rattle.std.specs.Prelude.{◌≡◌, ◌++◌, OnOk};
ghost use Rattle.it_report.specs.declared.refusal.Fault.TheVariants.{BadSums512, NoProvenance};
ghost use Rattle.it_report.specs.declared.refusal.Fault.TheVariants.{RecordMissing, RuleFailed};
ghost use Rattle.it_report.specs.declared.refusal.Fault.TheVariants.{Threshold, TwoPayloads};
ghost use Rattle.it_json_report.specs.Json.{further, member};
ghost use Rattle.it_json_report.specs.JsonReport.{fault_members};

use crate::members::{push_number_member, push_text_member};
use crate::parts::{item_text, layout_part_text, policy_part_text};
use it_base::text::Text;
use it_chain::refusal::RuleItem;
use it_docs::rule::Side;
use it_report::refusal::Fault;
use it_report::side_text;
use std::alloc::{AllocError, Global};

pub(super) fn push_fault(alloc: Global, json: &mut Vec<u8>, fault: &Fault) -> Result<(), AllocError>
    ensures { OnOk result (json.new.items
        ≡ json.old.items ++ further member (fault_members fault.now)) }
{
    match fault {
        Fault::BadPolicy(part) => {
            push_text_member(json, "part", policy_part_text(alloc, *part)?.as_str())
        }
        Fault::BadSums(number) => push_number_member(alloc, json, "line", *number),
        Fault::BadSums512(number) => push_line_by_sha512(alloc, json, *number),
        Fault::OwnerMissing(id) => push_text_member(json, "key", id.as_str()),
        Fault::BadLayout(part) => {
            push_text_member(json, "part", layout_part_text(alloc, part)?.as_str())
        }
        Fault::TwoPayloads { step, id } => push_step_and_key(json, step, id),
        Fault::Threshold {
            step,
            found,
            needed,
        } => push_threshold(alloc, json, step, *found, *needed),
        Fault::Disagree { step, id } => push_step_and_key(json, step, id),
        Fault::RuleFailed {
            item,
            side,
            index,
            path,
        } => push_rule(alloc, json, item, *side, (*index, path)),
        Fault::RecordMissing(name) => push_inspection(json, name),
        Fault::BadRecord(name) => push_inspection(json, name),
        Fault::NoExpectation(path) => push_text_member(json, "path", path.as_str()),
        Fault::NoProvenance(path, best) => push_provenance(alloc, json, path, *best),
        Fault::BadMoment
        | Fault::NoFiles
        | Fault::BadEnvelope
        | Fault::WrongPayloadType
        | Fault::Expired
        | Fault::TooDeep
        | Fault::InspectionInSublayout => Ok(()),
    }
}

fn push_line_by_sha512(alloc: Global, json: &mut Vec<u8>, number: u64) -> Result<(), AllocError>
    ensures { OnOk result (json.new.items
        ≡ json.old.items ++ further member (fault_members (BadSums512 number))) }
{
    push_text_member(json, "list", "sha512")?;
    push_number_member(alloc, json, "line", number)
}

fn push_step_and_key(json: &mut Vec<u8>, step: &Text, id: &Text) -> Result<(), AllocError>
    ensures { OnOk result (json.new.items
        ≡ json.old.items ++ further member (fault_members (TwoPayloads step.now id.now))) }
{
    push_text_member(json, "step", step.as_str())?;
    push_text_member(json, "key", id.as_str())
}

fn push_threshold(
    alloc: Global,
    json: &mut Vec<u8>,
    step: &Text,
    found: u64,
    needed: u64,
) -> Result<(), AllocError>
    ensures { OnOk result (json.new.items
        ≡ json.old.items ++ further member (fault_members (Threshold step.now found needed))) }
{
    push_text_member(json, "step", step.as_str())?;
    push_number_member(alloc, json, "found", found)?;
    push_number_member(alloc, json, "needed", needed)
}

/// Says which rule failed: whose, on which side, and at which place for which path.
fn push_rule(
    alloc: Global,
    json: &mut Vec<u8>,
    item: &RuleItem,
    side: Side,
    place: (usize, &Text),
) -> Result<(), AllocError>
    ensures { OnOk result (json.new.items
        ≡ json.old.items
        ++ further member
        (fault_members (RuleFailed item.now side place.entry.0 place.entry.1.now))) }
{
    let (index, path) = place;
    push_text_member(json, "item", item_text(alloc, item)?.as_str())?;
    push_text_member(json, "side", side_text(side))?;
    push_number_member(alloc, json, "rule", index as u64)?;
    push_text_member(json, "path", path.as_str())
}

fn push_inspection(json: &mut Vec<u8>, name: &Text) -> Result<(), AllocError>
    ensures { OnOk result (json.new.items
        ≡ json.old.items ++ further member (fault_members (RecordMissing name.now))) }
{
    push_text_member(json, "inspection", name.as_str())
}

fn push_provenance(
    alloc: Global,
    json: &mut Vec<u8>,
    path: &Text,
    best: Option<u8>,
) -> Result<(), AllocError>
    ensures { OnOk result (json.new.items
        ≡ json.old.items ++ further member (fault_members (NoProvenance path.now best))) }
{
    push_text_member(json, "path", path.as_str())?;
    match best {
        Some(level) => push_number_member(alloc, json, "best", level as u64),
        None => Ok(()),
    }
}
