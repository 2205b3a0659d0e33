//! How layouts are read.
use crate::values::envelopes::object_told;
use crate::values::parts::texts_told;
use crate::values::rules;
use it_base::table::Table;
use it_docs::layout::Layout;
use it_docs::layout_fault::{LayoutFault, LayoutPart};
use it_docs::layout_reading::read_layout;
use it_docs::step::{Inspection, Step};
use it_dsse::key_object::KeyObject;
use it_tables::RowFault;
use it_tables::row::member_in;
use serde_json::Value;
use std::alloc::{AllocError, Global};

/// What a call on the layout in the document of a row answers.
pub(crate) fn answer(alloc: Global, call: &str, row: &Value) -> Result<String, RowFault> {
    let text = member_in(row, "document")?.to_string(alloc)?;
    match call {
        "read" => read(alloc, text.as_bytes()),
        _ => Err(RowFault::UnknownCall),
    }
}

fn read(alloc: Global, bytes: &[u8]) -> Result<String, RowFault> {
    match read_layout(alloc, bytes) {
        Ok(layout) => Ok(told(alloc, &layout)?),
        Err(fault) => Ok(fault_told(alloc, &fault)?),
    }
}

fn fault_told(alloc: Global, fault: &LayoutFault) -> Result<String, AllocError> {
    match fault {
        LayoutFault::BadLayout(LayoutPart::Step(index)) => {
            format!(in alloc; "bad layout: step {index}")
        }
        LayoutFault::BadLayout(_) => String::from_str(alloc, "bad layout"),
        LayoutFault::OutOfMemory => String::from_str(alloc, "out of memory"),
    }
}

/// The moment, the keys, the steps and the inspections of a layout.
fn told(alloc: Global, layout: &Layout) -> Result<String, AllocError> {
    let expires = layout.expires;
    let keys = keys_told(alloc, &layout.keys)?;
    let steps = steps_told(alloc, layout.steps.as_slice())?;
    let inspections = inspections_told(alloc, layout.inspections.as_slice())?;
    format!(in alloc; "expires {expires} keys ({keys}) steps ({steps}) inspect ({inspections})")
}

/// The key objects with their ids.
///
/// # Errors
///
/// Memory was refused.
pub(crate) fn keys_told(alloc: Global, keys: &Table<KeyObject>) -> Result<String, AllocError> {
    let mut text = String::new(alloc);
    for (id, object) in keys.iter() {
        write!(text, "{id}={};", object_told(alloc, object)?)?;
    }
    Ok(text)
}

fn steps_told(alloc: Global, steps: &[Step]) -> Result<String, AllocError> {
    let mut text = String::new(alloc);
    for step in steps {
        write!(text, "{};", step_told(alloc, step)?)?;
    }
    Ok(text)
}

/// The name of a step, its threshold, its keys, and its rules.
fn step_told(alloc: Global, step: &Step) -> Result<String, AllocError> {
    let name = step.name.as_str();
    let threshold = step.threshold;
    let keys = texts_told(alloc, step.pubkeys.as_slice())?;
    let materials = rules::told(alloc, step.expected_materials.as_slice())?;
    let products = rules::told(alloc, step.expected_products.as_slice())?;
    format!(in alloc; "{name} by {threshold} of ({keys}) from ({materials}) to ({products})")
}

fn inspections_told(alloc: Global, inspections: &[Inspection]) -> Result<String, AllocError> {
    let mut text = String::new(alloc);
    for inspection in inspections {
        write!(text, "{};", inspection_told(alloc, inspection)?)?;
    }
    Ok(text)
}

/// The name of an inspection, and its rules.
fn inspection_told(alloc: Global, inspection: &Inspection) -> Result<String, AllocError> {
    let name = inspection.name.as_str();
    let materials = rules::told(alloc, inspection.expected_materials.as_slice())?;
    let products = rules::told(alloc, inspection.expected_products.as_slice())?;
    format!(in alloc; "{name} from ({materials}) to ({products})")
}
