//! What a chain holds, and where a refusal lies.
use crate::cases::case::depth_in;
use crate::verify::inputs::folder_in;
use it_chain::chain::{Chain, StepResult};
use it_chain::refusal::{ChainError, ChainFault, ChainRefusal};
use it_chain::verify_chain;
use it_digest::artifacts::Artifacts;
use it_docs::layout_reading::read_layout;
use it_dsse::check::SignatureCheck;
use it_dsse::meter::Meter;
use it_tables::RowFault;
use it_tables::rings::ring_in;
use it_tables::row::{number_in, text_in};
use serde_json::Value;
use std::alloc::{AllocError, Global};

/// The outcome of the layout of a row over its links: each step, and how many signatures were
/// tried; or the fault, and where it lies.
pub(crate) fn chain(alloc: Global, row: &Value) -> Result<String, RowFault> {
    let layout = read_layout(alloc, text_in(row, "layout")?.as_bytes())
        .ok()
        .ok_or(RowFault::BadMember("layout"))?;
    let links = folder_in(alloc, row, "links")?;
    let moment = moment_in(row)?;
    let depth = depth_in(row)?;
    let panel: [Box<dyn SignatureCheck>; 1] = [Box::new(alloc, ring_in(alloc, row)?)?];
    let mut meter = Meter { asked: 0 };
    match verify_chain(alloc, &layout, &links, moment, depth, &panel, &mut meter) {
        Ok(chain) => Ok(chain_words(alloc, &chain, meter)?),
        Err(ChainError::Refused(refusal)) => Ok(refusal_words(alloc, &refusal)?),
        Err(ChainError::OutOfMemory) => Err(RowFault::OutOfMemory),
    }
}

/// The moment of a row, in seconds.
fn moment_in(row: &Value) -> Result<i64, RowFault> {
    i64::try_from(number_in(row, "moment")?)
        .ok()
        .ok_or(RowFault::BadMember("moment"))
}

fn chain_words(alloc: Global, chain: &Chain, meter: Meter) -> Result<String, AllocError> {
    let mut words = String::new(alloc);
    for step in chain.steps.as_slice() {
        words.push_str(step_words(alloc, step)?.as_str())?;
    }
    let asked = meter.asked;
    format!(in alloc; "{}{asked} tried", words.as_str())
}

fn step_words(alloc: Global, step: &StepResult) -> Result<String, AllocError> {
    let taken = paths(alloc, &step.materials)?;
    let made = paths(alloc, &step.products)?;
    let (name, keys) = (step.name.as_str(), step.keys);
    let (taken, made) = (taken.as_str(), made.as_str());
    format!(in alloc; "step {name} by {keys} keys:{taken}, made{made}; ")
}

/// The paths, each with a space before it.
fn paths(alloc: Global, artifacts: &Artifacts) -> Result<String, AllocError> {
    let mut words = String::new(alloc);
    for path in artifacts.paths() {
        words.push(' ')?;
        words.push_str(path.as_str())?;
    }
    Ok(words)
}

fn refusal_words(alloc: Global, refusal: &ChainRefusal) -> Result<String, AllocError> {
    let mut words = String::from_str(alloc, fault_name(&refusal.fault))?;
    for (step, id) in refusal.at.as_slice() {
        let (step, id) = (step.as_str(), id.as_str());
        words.push_str(format!(in alloc; " at {step}/{id}")?.as_str())?;
    }
    Ok(words)
}

fn fault_name(fault: &ChainFault) -> &'static str {
    match fault {
        ChainFault::Expired => "Expired",
        ChainFault::TwoPayloads { .. } => "TwoPayloads",
        ChainFault::TooDeep => "TooDeep",
        ChainFault::Threshold { .. } => "Threshold",
        ChainFault::Disagree { .. } => "Disagree",
        ChainFault::InspectionInSublayout => "InspectionInSublayout",
        ChainFault::RuleFailed { .. } => "RuleFailed",
    }
}
