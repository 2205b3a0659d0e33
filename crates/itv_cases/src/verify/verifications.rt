//! Whole verifications: what they report, and how many signatures they try.
ghost use Rattle.std.specs.Prelude.{◌≤◌};

use crate::cases::case::inputs_in;
use it_dsse::check::SignatureCheck;
use it_dsse::ring::HmacRing;
use it_outcome::exit_of;
use it_tables::RowFault;
use it_tables::rings::ring_in;
use it_verify::inputs::Inputs;
use it_verify::{run_verify, verify};
use serde_json::Value;
use std::alloc::Global;

/// The exit status and the report of a verification, by a panel of checks.
pub(crate) fn report_by(
    alloc: Global,
    inputs: &Inputs,
    panel: &[Box<dyn SignatureCheck>],
) -> Result<(u8, String), RowFault>
    requires { inputs.now.depth ≤ 8 }
{
    let mut out = Vec::new(alloc);
    let status = run_verify(alloc, inputs, panel, &mut out);
    Ok((exit_of(&status), text_of(out)?))
}

/// The report of a verification, by a ring.
pub(crate) fn report_of(alloc: Global, inputs: &Inputs, ring: HmacRing) -> Result<String, RowFault>
    requires { inputs.now.depth ≤ 8 }
{
    let panel: [Box<dyn SignatureCheck>; 1] = [Box::new(alloc, ring)?];
    let (_, report) = report_by(alloc, inputs, &panel)?;
    Ok(report)
}

/// The text in some bytes.
pub(crate) fn text_of(bytes: Vec<u8>) -> Result<String, RowFault> {
    String::from_utf8(bytes)
        .ok()
        .ok_or(RowFault::BadMember("gives"))
}

/// How often the verification of a row asks whether a signature is valid.
pub(crate) fn asked(alloc: Global, row: &Value) -> Result<String, RowFault> {
    let inputs = inputs_in(alloc, row)?;
    let panel: [Box<dyn SignatureCheck>; 1] = [Box::new(alloc, ring_in(alloc, row)?)?];
    let answer = verify(alloc, &inputs, &panel)?;
    let asked = answer.asked;
    Ok(format!(in alloc; "{asked}")?)
}
