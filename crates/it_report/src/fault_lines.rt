//! What a report says about a fault, line by line.
ghost use Rattle.std.specs.Prelude.{◌≡◌, ◌++◌, OnOk, codes};
ghost use Rattle.it_report.specs.Name.{name_form};
ghost use Rattle.it_report.specs.Report.{
  fault_lines,
  item_form,
  layout_part_form,
  line,
  policy_part_form,
  side_form,
};

use crate::lines::{push_line, push_name_line, push_number_line};
use crate::refusal::Fault;
use crate::side::side_text;
use it_base::text::Text;
use it_chain::refusal::RuleItem;
use it_docs::layout_fault::LayoutPart;
use it_docs::policy_fault::PolicyPart;
use it_docs::rule::Side;
use std::alloc::{AllocError, Global};

pub(super) fn push_fault(alloc: Global, text: &mut Vec<u8>, fault: &Fault) -> Result<(), AllocError>
    ensures { OnOk result (text.new.items ≡ text.old.items ++ fault_lines fault.now) }
{
    match fault {
        Fault::BadPolicy(part) => push_policy_part(alloc, text, *part),
        Fault::BadSums(number) => push_number_line(alloc, text, "line", *number),
        Fault::BadSums512(number) => push_line_by_sha512(alloc, text, *number),
        Fault::OwnerMissing(id) => push_name_line(text, "key", id),
        Fault::BadLayout(part) => push_layout_part(alloc, text, part),
        Fault::TwoPayloads { step, id } => push_step_and_key(text, step, id),
        Fault::Threshold {
            step,
            found,
            needed,
        } => push_threshold(alloc, text, step, *found, *needed),
        Fault::Disagree { step, id } => push_step_and_key(text, step, id),
        Fault::RuleFailed {
            item,
            side,
            index,
            path,
        } => push_rule(alloc, text, item, *side, (*index, path)),
        Fault::RecordMissing(name) => push_name_line(text, "name", name),
        Fault::BadRecord(name) => push_name_line(text, "name", name),
        Fault::NoExpectation(path) => push_name_line(text, "path", path),
        Fault::NoProvenance(path, best) => push_provenance(alloc, text, path, *best),
        Fault::BadMoment
        | Fault::NoFiles
        | Fault::BadEnvelope
        | Fault::WrongPayloadType
        | Fault::Expired
        | Fault::TooDeep
        | Fault::InspectionInSublayout => Ok(()),
    }
}

fn push_policy_part(alloc: Global, text: &mut Vec<u8>, part: PolicyPart) -> Result<(), AllocError>
    ensures { OnOk result (text.new.items
        ≡ text.old.items ++ line (codes "part") (policy_part_form part)) }
{
    match part {
        PolicyPart::Json => push_line(text, "part", "json"),
        PolicyPart::Owners => push_line(text, "part", "owners"),
        PolicyPart::Deliver => push_line(text, "part", "deliver"),
        PolicyPart::Expectations => push_line(text, "part", "expectations"),
        PolicyPart::Expectation(n) => push_number_line(alloc, text, "part expectation", n as u64),
    }
}

fn push_line_by_sha512(alloc: Global, text: &mut Vec<u8>, number: u64) -> Result<(), AllocError>
    ensures { OnOk result (text.new.items
        ≡ text.old.items ++ fault_lines (Fault.BadSums512 number)) }
{
    push_line(text, "list", "sha512")?;
    push_number_line(alloc, text, "line", number)
}

fn push_layout_part(alloc: Global, text: &mut Vec<u8>, part: &LayoutPart) -> Result<(), AllocError>
    ensures { OnOk result (text.new.items
        ≡ text.old.items ++ line (codes "part") (layout_part_form part.now)) }
{
    match part {
        LayoutPart::Json => push_line(text, "part", "json"),
        LayoutPart::WrongType => push_line(text, "part", "type"),
        LayoutPart::Expires => push_line(text, "part", "expires"),
        LayoutPart::Keys => push_line(text, "part", "keys"),
        LayoutPart::Steps => push_line(text, "part", "steps"),
        LayoutPart::Step(n) => push_number_line(alloc, text, "part step", *n as u64),
        LayoutPart::Inspects => push_line(text, "part", "inspects"),
        LayoutPart::Inspect(n) => push_number_line(alloc, text, "part inspect", *n as u64),
        LayoutPart::DuplicateName(name) => push_name_line(text, "part duplicate", name),
    }
}

fn push_step_and_key(text: &mut Vec<u8>, step: &Text, id: &Text) -> Result<(), AllocError>
    ensures { OnOk result (text.new.items ≡ text.old.items
        ++ (line (codes "step") (name_form step.now) ++ line (codes "key") (name_form id.now))) }
{
    push_name_line(text, "step", step)?;
    push_name_line(text, "key", id)
}

fn push_threshold(
    alloc: Global,
    text: &mut Vec<u8>,
    step: &Text,
    found: u64,
    needed: u64,
) -> Result<(), AllocError>
    ensures { OnOk result (text.new.items
        ≡ text.old.items ++ fault_lines (Fault.Threshold step.now found needed)) }
{
    push_name_line(text, "step", step)?;
    push_number_line(alloc, text, "found", found)?;
    push_number_line(alloc, text, "needed", needed)
}

/// Says which rule failed: whose, on which side, and at which place for which path.
fn push_rule(
    alloc: Global,
    text: &mut Vec<u8>,
    item: &RuleItem,
    side: Side,
    place: (usize, &Text),
) -> Result<(), AllocError>
    ensures { OnOk result (text.new.items
        ≡ text.old.items
        ++ fault_lines (Fault.RuleFailed item.now side place.entry.0 place.entry.1.now)) }
{
    let (index, path) = place;
    push_item(text, item)?;
    push_side(text, side)?;
    push_number_line(alloc, text, "rule", index as u64)?;
    push_name_line(text, "path", path)
}

fn push_provenance(
    alloc: Global,
    text: &mut Vec<u8>,
    path: &Text,
    best: Option<u8>,
) -> Result<(), AllocError>
    ensures { OnOk result (text.new.items
        ≡ text.old.items ++ fault_lines (Fault.NoProvenance path.now best)) }
{
    push_name_line(text, "path", path)?;
    match best {
        Some(level) => push_number_line(alloc, text, "best", level as u64),
        None => Ok(()),
    }
}

fn push_item(text: &mut Vec<u8>, item: &RuleItem) -> Result<(), AllocError>
    ensures { OnOk result (text.new.items
        ≡ text.old.items ++ line (codes "item") (item_form item.now)) }
{
    match item {
        RuleItem::Step(name) => push_name_line(text, "item step", name),
        RuleItem::Inspection(name) => push_name_line(text, "item inspection", name),
        RuleItem::Deliver => push_line(text, "item", "deliver"),
    }
}

fn push_side(text: &mut Vec<u8>, side: Side) -> Result<(), AllocError>
    ensures { OnOk result (text.new.items
        ≡ text.old.items ++ line (codes "side") (side_form side)) }
{
    push_line(text, "side", side_text(side))
}
