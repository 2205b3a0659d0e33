//! A case: the inputs of a verification, and the answer that is wanted.
ghost use Rattle.std.specs.Prelude.{◌≤◌, [], codes, IfOk, map};
ghost use Rattle.serde_json.specs.View.{view};
ghost use Rattle.it_base.specs.Parts.{IsPart, IsPartOr};
ghost use Rattle.it_base.specs.Sequence.{IsList};
ghost use Rattle.it_dsse.specs.Panel.{panel_of};
ghost use Rattle.it_dsse.specs.Ring.{ring_check};
ghost use Rattle.it_tables.specs.Part.{IsBytes, IsNumber};
ghost use Rattle.itv_cases.specs.Answer.{IsAnswer};
ghost use Rattle.itv_cases.specs.Part.{IsNamed};
ghost use Rattle.itv_cases.specs.Reading.{InputsOf};

use crate::cases::answer::Answer;
use crate::cases::links::read_links;
use crate::cases::parts::{named_part, number_part, text_part};
use crate::cases::run::Run;
use crate::cases::wanted::Wanted;
use it_base::document::member;
use it_base::sequence::Sequence;
use it_base::text::Text;
use it_dsse::check::SignatureCheck;
use it_dsse::ring::HmacRing;
use it_tables::RowFault;
use it_tables::rings::read_ring;
use it_tables::row::{bytes_of, bytes_part, member_in};
use it_verify::inputs::Inputs;
use serde_json::Value;
use std::alloc::{AllocError, Global};

/// The depth that a verification may go down to.
const MOST_DEPTH: u8 = 8;

const BAD_RINGS: RowFault = RowFault::BadMember("rings");

/// A verification with the answer that is wanted.
#[derive(Drop)]
pub(crate) struct Case {
    /// The name, which tells cases apart for the reader.
    pub(crate) name: Text,
    /// What the verification looks at.
    pub(crate) inputs: Inputs,
    /// The rings of secrets that signatures are checked with, in their order.
    pub(crate) rings: Sequence<HmacRing>,
    /// The answer that is wanted.
    pub(crate) wanted: Wanted,
    ghost within_depth: { inputs.depth ≤ 8 },
}

impl Case {
    ghost use Rattle.itv_cases.specs.Agreement.{IsRunOf};
    ghost use Rattle.itv_cases.specs.Cases.{CaseOf};

    /// The case in a document.
    ///
    /// # Errors
    ///
    /// `BadMember` with the name of the first member that is missing or malformed, `OutOfMemory`
    /// where memory was refused.
    pub(crate) fn read(alloc: Global, document: &Value) -> Result<Case, RowFault>
        ensures { IfOk result (CaseOf (view document.now)) }
    {
        Ok(Case {
            name: text_part(alloc, document, "name")?,
            inputs: inputs_in(alloc, document)?,
            rings: Sequence::from(rings(alloc, document)?),
            wanted: Wanted::of_case(alloc, document)?,
        })
    }

    /// Runs the verification.
    ///
    /// # Errors
    ///
    /// `AllocError` where memory was refused.
    pub(crate) fn run(self, alloc: Global) -> Result<Run, AllocError>
        ensures { IfOk result (IsRunOf self) }
    {
        let Case {
            name,
            inputs,
            rings,
            wanted,
        } = self;
        let given = answer_by(alloc, &inputs, rings.into_vec())?;
        Ok(Run {
            name,
            wanted,
            given,
        })
    }
}

/// The answer of the verification, with signatures checked by the rings.
fn answer_by(alloc: Global, inputs: &Inputs, rings: Vec<HmacRing>) -> Result<Answer, AllocError>
    requires { inputs.now.depth ≤ 8 }
    ensures { IfOk result (IsAnswer (panel_of (map ring_check rings.items)) inputs.now) }
{
    let mut panel: Vec<Box<dyn SignatureCheck>> = Vec::new(alloc);
    for ring in rings {
        panel.push(Box::new(alloc, ring)?)?;
    }
    Answer::of(alloc, inputs, panel.as_slice())
}

/// What the verification of a case, or of a row, looks at.
///
/// # Errors
///
/// `BadMember` with the name of the first member that is missing or malformed, `OutOfMemory` where
/// memory was refused.
pub(crate) fn inputs_in(alloc: Global, case: &Value) -> Result<Inputs, RowFault>
    ensures reads { IfOk result (InputsOf (view case.now)) }
    ensures within { IfOk result (λ inputs. inputs.depth ≤ 8) }
{
    let depth = depth_in(case)?;
    Ok(Inputs {
        policy: bytes_part(alloc, case, "policy")?,
        layout: bytes_part(alloc, case, "layout")?,
        links: read_links(alloc, member_in(case, "links")?)?,
        records: records(alloc, case)?,
        provenance: bytes_if_given(alloc, case, "provenance")?,
        sums: bytes_part(alloc, case, "sums")?,
        sums512: bytes_if_given(alloc, case, "sums512")?,
        moment: text_part(alloc, case, "at")?,
        depth,
    })
}

/// How deep sublayouts may be nested in a case, or in a row.
///
/// # Errors
///
/// `BadMember` where there is no such member, or it is not a number up to 8.
pub(crate) fn depth_in(case: &Value) -> Result<u8, RowFault>
    ensures reads { IfOk result (IsPart IsNumber (codes "depth") (view case.now)) }
    ensures within { IfOk result (λ depth. depth ≤ 8) }
{
    let depth = number_part(case, "depth")?;
    if depth > MOST_DEPTH {
        return Err(RowFault::BadMember("depth"));
    }
    Ok(depth)
}

/// The bytes in a member, or no bytes where it is missing.
fn bytes_if_given(alloc: Global, case: &Value, name: &'static str) -> Result<Sequence<u8>, RowFault>
    ensures { IfOk result (IsPartOr IsBytes [] name.now (view case.now)) }
{
    match member(case, name) {
        Some(_) => bytes_part(alloc, case, name),
        None => Ok(Sequence::from(Vec::new(alloc))),
    }
}

fn records(alloc: Global, case: &Value) -> Result<Sequence<(Text, Sequence<u8>)>, RowFault>
    ensures { IfOk result (IsPart (IsList IsNamed) (codes "records") (view case.now)) }
{
    Ok(Sequence::from(named_part(alloc, case, "records")?))
}

/// The rings of a case, in their order.
fn rings(alloc: Global, case: &Value) -> Result<Vec<HmacRing>, RowFault> {
    let mut rings = Vec::new(alloc);
    for ring in member_in(case, "rings")?.as_array().ok_or(BAD_RINGS)? {
        let bytes = bytes_of(alloc, ring)?.ok_or(BAD_RINGS)?;
        rings.push(read_ring(alloc, bytes.as_slice(), "rings")?)?;
    }
    Ok(rings)
}
