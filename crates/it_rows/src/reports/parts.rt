//! The parts of policies and layouts that rows describe, and whose rule failed.
use crate::reports::verdicts::named;
use it_chain::refusal::RuleItem;
use it_docs::layout_fault::LayoutPart;
use it_docs::policy_fault::PolicyPart;
use it_docs::rule::Side;
use it_tables::RowFault;
use it_tables::row::{number_in, text_in};
use serde_json::Value;
use std::alloc::Global;

/// The part of a policy that a row names.
///
/// # Errors
///
/// `BadMember` where it names none.
pub(crate) fn policy_part_in(row: &Value) -> Result<PolicyPart, RowFault> {
    match text_in(row, "part")? {
        "json" => Ok(PolicyPart::Json),
        "owners" => Ok(PolicyPart::Owners),
        "deliver" => Ok(PolicyPart::Deliver),
        "expectations" => Ok(PolicyPart::Expectations),
        "expectation" => Ok(PolicyPart::Expectation(number_in(row, "index")? as usize)),
        _ => Err(RowFault::BadMember("part")),
    }
}

/// The part of a layout that a row names.
///
/// # Errors
///
/// `BadMember` where it names none; `OutOfMemory` where memory was refused.
pub(crate) fn layout_part_in(alloc: Global, row: &Value) -> Result<LayoutPart, RowFault> {
    match text_in(row, "part")? {
        "json" => Ok(LayoutPart::Json),
        "type" => Ok(LayoutPart::WrongType),
        "expires" => Ok(LayoutPart::Expires),
        "keys" => Ok(LayoutPart::Keys),
        "steps" => Ok(LayoutPart::Steps),
        "step" => Ok(LayoutPart::Step(number_in(row, "index")? as usize)),
        "inspects" => Ok(LayoutPart::Inspects),
        "inspect" => Ok(LayoutPart::Inspect(number_in(row, "index")? as usize)),
        "duplicate" => Ok(LayoutPart::DuplicateName(named(alloc, row, "name")?)),
        _ => Err(RowFault::BadMember("part")),
    }
}

/// Whose rule failed.
///
/// # Errors
///
/// `BadMember` where the row does not say it; `OutOfMemory` where memory was refused.
pub(crate) fn item_in(alloc: Global, row: &Value) -> Result<RuleItem, RowFault> {
    match text_in(row, "item")? {
        "step" => Ok(RuleItem::Step(named(alloc, row, "name")?)),
        "inspection" => Ok(RuleItem::Inspection(named(alloc, row, "name")?)),
        "deliver" => Ok(RuleItem::Deliver),
        _ => Err(RowFault::BadMember("item")),
    }
}

/// The side that the rule judges.
///
/// # Errors
///
/// `BadMember` where the row does not say it.
pub(crate) fn side_in(row: &Value) -> Result<Side, RowFault> {
    match text_in(row, "side")? {
        "materials" => Ok(Side::Materials),
        "products" => Ok(Side::Products),
        _ => Err(RowFault::BadMember("side")),
    }
}
