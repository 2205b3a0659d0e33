//! What a fault is about, as texts: parts of documents, and whose rule it is.
ghost use Rattle.std.specs.Prelude.{◌≡◌, ◌++◌, IfOk, string_bytes};
ghost use Rattle.it_report.specs.Report.{policy_part_form};
ghost use Rattle.it_json_report.specs.JsonReport.{item_text, layout_part_text};

use it_base::text::Text;
use it_chain::refusal::RuleItem;
use it_docs::layout_fault::LayoutPart;
use it_docs::policy_fault::PolicyPart;
use std::alloc::{AllocError, Global};

pub(super) fn policy_part_text(alloc: Global, part: PolicyPart) -> Result<String, AllocError>
    ensures { IfOk result (λ text. string_bytes text ≡ policy_part_form part) }
{
    match part {
        PolicyPart::Json => String::from_str(alloc, "json"),
        PolicyPart::Owners => String::from_str(alloc, "owners"),
        PolicyPart::Deliver => String::from_str(alloc, "deliver"),
        PolicyPart::Expectations => String::from_str(alloc, "expectations"),
        PolicyPart::Expectation(n) => format!(in alloc; "expectation {n}"),
    }
}

pub(super) fn layout_part_text(alloc: Global, part: &LayoutPart) -> Result<String, AllocError>
    ensures { IfOk result (λ text. string_bytes text ≡ layout_part_text part.now) }
{
    match part {
        LayoutPart::Json => String::from_str(alloc, "json"),
        LayoutPart::WrongType => String::from_str(alloc, "type"),
        LayoutPart::Expires => String::from_str(alloc, "expires"),
        LayoutPart::Keys => String::from_str(alloc, "keys"),
        LayoutPart::Steps => String::from_str(alloc, "steps"),
        LayoutPart::Step(n) => format!(in alloc; "step {n}"),
        LayoutPart::Inspects => String::from_str(alloc, "inspects"),
        LayoutPart::Inspect(n) => format!(in alloc; "inspect {n}"),
        LayoutPart::DuplicateName(name) => named(alloc, "duplicate ", name),
    }
}

pub(super) fn item_text(alloc: Global, item: &RuleItem) -> Result<String, AllocError>
    ensures { IfOk result (λ text. string_bytes text ≡ item_text item.now) }
{
    match item {
        RuleItem::Step(name) => named(alloc, "step ", name),
        RuleItem::Inspection(name) => named(alloc, "inspection ", name),
        RuleItem::Deliver => String::from_str(alloc, "deliver"),
    }
}

fn named(alloc: Global, kind: &str, name: &Text) -> Result<String, AllocError>
    ensures { IfOk result (λ text. string_bytes text ≡ kind.now ++ name.now) }
{
    let mut text = String::from_str(alloc, kind)?;
    text.push_str(name.as_str())?;
    Ok(text)
}
