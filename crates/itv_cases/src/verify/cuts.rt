//! Each document of a verification cut to each shorter beginning, while the others stay whole.
ghost use Rattle.std.specs.Prelude.{◌≡◌, OnOk};

use crate::cases::case::inputs_in;
use crate::cases::parts::named_part;
use crate::verify::inputs::length_in;
use crate::verify::verifications::report_of;
use it_base::sequence::Sequence;
use it_base::text::Text;
use it_chain::bundle::Bundle;
use it_dsse::ring::HmacRing;
use it_tables::RowFault;
use it_tables::rings::ring_in;
use it_tables::row::{member_in, text_in};
use it_verify::inputs::Inputs;
use serde_json::Value;
use std::alloc::Global;

/// A length that a row gives is greater than that of what is cut.
const TOO_LONG: RowFault = RowFault::BadMember("to");

/// The answers with the document that a row names cut to each length from `from` to below `to`: one
/// answer if all are the same, otherwise the first that differs, after its length.
pub(crate) fn answer_of_cuts(alloc: Global, row: &Value) -> Result<String, RowFault> {
    let from = length_in(row, "from")?;
    let answer = answer_of_cut(alloc, row, from)?;
    for kept in from..length_in(row, "to")? {
        let other = answer_of_cut(alloc, row, kept)?;
        if other.as_str() != answer.as_str() {
            return Ok(format!(in alloc; "{kept}: {}", other.as_str())?);
        }
    }
    Ok(answer)
}

/// The fault of a ring cut to this length, or the report with another document cut to it.
fn answer_of_cut(alloc: Global, row: &Value, kept: usize) -> Result<String, RowFault> {
    match text_in(row, "cut")? {
        "ring" => fault_of_cut_ring(alloc, row, kept),
        part => report_of_cut(alloc, row, part, kept),
    }
}

fn fault_of_cut_ring(alloc: Global, row: &Value, kept: usize) -> Result<String, RowFault> {
    let ring = text_in(row, "ring")?.get(..kept).ok_or(TOO_LONG)?;
    match HmacRing::read(alloc, ring.as_bytes()) {
        Ok(_) => Ok(String::from_str(alloc, "a ring")?),
        Err(fault) => Ok(format!(in alloc; "{fault:?}")?),
    }
}

fn report_of_cut(alloc: Global, row: &Value, part: &str, kept: usize) -> Result<String, RowFault> {
    let mut inputs = inputs_in(alloc, row)?;
    cut(alloc, row, &mut inputs, part, kept)?;
    report_of(alloc, &inputs, ring_in(alloc, row)?)
}

/// Cuts the document of this name, in a row and its inputs, to this length.
fn cut(
    alloc: Global,
    row: &Value,
    inputs: &mut Inputs,
    part: &str,
    kept: usize,
) -> Result<(), RowFault>
    ensures { OnOk result (inputs.new.depth ≡ inputs.old.depth) }
{
    match part {
        "policy" => inputs.policy = beginning(alloc, &inputs.policy, kept)?,
        "layout" => inputs.layout = beginning(alloc, &inputs.layout, kept)?,
        "link" => inputs.links = cut_links(alloc, row, kept)?,
        "provenance" => inputs.provenance = beginning(alloc, &inputs.provenance, kept)?,
        "sums" => inputs.sums = beginning(alloc, &inputs.sums, kept)?,
        "sums512" => inputs.sums512 = beginning(alloc, &inputs.sums512, kept)?,
        "at" => inputs.moment = beginning_of_text(alloc, &inputs.moment, kept)?,
        _ => return Err(RowFault::BadMember("cut")),
    }
    Ok(())
}

fn beginning(alloc: Global, whole: &Sequence<u8>, kept: usize) -> Result<Sequence<u8>, RowFault> {
    let bytes = whole.as_slice().get(..kept).ok_or(TOO_LONG)?;
    Ok(Sequence::from(bytes.to_vec(alloc)?))
}

fn beginning_of_text(alloc: Global, whole: &Text, kept: usize) -> Result<Text, RowFault> {
    let text = whole.as_str().get(..kept).ok_or(TOO_LONG)?;
    Ok(Text::copy(alloc, text)?)
}

/// The files that a row gives, each cut.
fn cut_links(alloc: Global, row: &Value, kept: usize) -> Result<Bundle, RowFault> {
    let mut cut = Bundle::new(alloc);
    for (name, bytes) in named_part(alloc, member_in(row, "links")?, "files")? {
        let name = String::from_str(alloc, name.as_str())?;
        let bytes = beginning(alloc, &bytes, kept)?;
        cut.add_file(name, bytes.into_vec())?;
    }
    Ok(cut)
}
