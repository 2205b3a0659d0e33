//! Verifications by a check of another kind than a ring.
ghost use Rattle.std.specs.Prelude.{◌≤◌};

use crate::cases::case::inputs_in;
use crate::verify::verifications::report_by;
use it_dsse::check::SignatureCheck;
use it_dsse::key_object::KeyObject;
use it_dsse::meter::Meter;
use it_dsse::ring::HmacRing;
use it_tables::RowFault;
use it_tables::rings::ring_in;
use it_tables::row::text_in;
use it_verify::inputs::Inputs;
use serde_json::Value;
use std::alloc::Global;

/// A check that knows every id, all by one key, and takes every signature as valid.
#[derive(Drop)]
struct Trusting {
    key: u32,
}

impl SignatureCheck for Trusting {
    ghost use Rattle.std.specs.Prelude.{Some, true};

    ghost meaning = { λ trusting. record {
      key_of = λ id object. Some trusting.key;
      is_valid = λ key message sig. true;
    } };

    fn key(&self, _id: &str, _object: &KeyObject) -> Option<u32> {
        Some(self.key)
    }

    fn valid(&self, _key: u32, _message: &[&[u8]], _sig: &[u8], meter: &mut Meter) -> bool {
        meter.raise();
        true
    }
}

// Alice's key has this number in the ring.
const TRUSTING: Trusting = Trusting { key: 1 };

/// The exit status and the report of the verification of a row, by its ring and by this check,
/// which comes before or after the ring.
pub(crate) fn report_beside_ring(alloc: Global, row: &Value) -> Result<String, RowFault> {
    let inputs = inputs_in(alloc, row)?;
    let ring = ring_in(alloc, row)?;
    let (status, report) = match text_in(row, "trusting")? {
        "first" => report_by_check_and_ring(alloc, &inputs, ring)?,
        "last" => report_by_ring_and_check(alloc, &inputs, ring)?,
        _ => return Err(RowFault::BadMember("trusting")),
    };
    Ok(format!(in alloc; "{status} {}", report.as_str())?)
}

fn report_by_check_and_ring(
    alloc: Global,
    inputs: &Inputs,
    ring: HmacRing,
) -> Result<(u8, String), RowFault>
    requires { inputs.now.depth ≤ 8 }
{
    let trusting = Box::new(alloc, TRUSTING)?;
    let ring = Box::new(alloc, ring)?;
    let panel: [Box<dyn SignatureCheck>; 2] = [trusting, ring];
    report_by(alloc, inputs, &panel)
}

fn report_by_ring_and_check(
    alloc: Global,
    inputs: &Inputs,
    ring: HmacRing,
) -> Result<(u8, String), RowFault>
    requires { inputs.now.depth ≤ 8 }
{
    let ring = Box::new(alloc, ring)?;
    let trusting = Box::new(alloc, TRUSTING)?;
    let panel: [Box<dyn SignatureCheck>; 2] = [ring, trusting];
    report_by(alloc, inputs, &panel)
}
