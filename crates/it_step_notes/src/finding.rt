//! What is found in a file that is claimed for a step.
ghost use Rattle.std.specs.Prelude.{◌↔◌, IfOk, IsTrue, MatchOption};
ghost use Rattle.it_docs.specs.Layout.{LayoutOf};
ghost use Rattle.it_docs.specs.declared.layout.Layout.{Layout};
ghost use Rattle.it_chain.specs.CountedBodies.{Body, BodyOf};
ghost use Rattle.it_step_notes.specs.StepNotes.{IsFinding, IsFindingOf, IsNoBody, IsSignedByNone};

use crate::note::Finding;
use crate::room::Room;
use crate::signing_ids::{other_ids, signing_ids};
use crate::step_at::StepAt;
use it_base::sequence::Sequence;
use it_base::text::Text;
use it_chain::held_file::HeldFile;
use it_chain::{layout_in, link_in};
use it_dsse::checks::Checks;
use it_dsse::envelope::Envelope;
use it_dsse::payload_type::IN_TOTO;
use std::alloc::{AllocError, Global};

/// What is found in a file for a step.
pub(crate) fn finding_in<C: Checks>(
    alloc: Global,
    at: &StepAt,
    file: &HeldFile,
    checks: &C,
    room: &mut Room,
) -> Result<Finding, AllocError>
    ensures { IfOk result (IsFinding (C.panel checks.now) at.now.layout.now
        at.now.step.now file.now.bytes) }
{
    match file.envelope() {
        Some(envelope) => finding_of(alloc, at, envelope, checks, room),
        None => Ok(Finding::NoEnvelope),
    }
}

fn finding_of<C: Checks>(
    alloc: Global,
    at: &StepAt,
    envelope: &Envelope,
    checks: &C,
    room: &mut Room,
) -> Result<Finding, AllocError>
    ensures { IfOk result (IsFindingOf (C.panel checks.now) at.now.layout.now
        at.now.step.now envelope.now) }
{
    let kind = envelope.payload_type.as_str();
    if kind != IN_TOTO {
        return Ok(Finding::PayloadType(Text::copy(alloc, kind)?));
    }
    let ids = signing_ids(alloc, at, envelope, checks)?;
    let signed = ids.as_slice();
    if signed.is_empty() {
        return unsigned_finding(alloc, at, envelope, checks, room);
    }
    match no_body(alloc, at.step.name.as_str(), envelope.payload.as_slice())? {
        Some(finding) => Ok(finding),
        None => Ok(Finding::Counts(Sequence::from(ids))),
    }
}

/// What is found in an envelope that is signed under no key id of a step: under which other ids, if
/// there is room to check that.
fn unsigned_finding<C: Checks>(
    alloc: Global,
    at: &StepAt,
    envelope: &Envelope,
    checks: &C,
    room: &mut Room,
) -> Result<Finding, AllocError>
    requires { IsSignedByNone (C.panel checks.now) at.now.layout.now at.now.step.now
        envelope.now }
    ensures { IfOk result (IsFindingOf (C.panel checks.now) at.now.layout.now
        at.now.step.now envelope.now) }
{
    if !room.takes(at.layout, envelope) {
        return Ok(Finding::Unsigned);
    }
    let others = other_ids(alloc, at, envelope, checks)?;
    Ok(Finding::NoSignature(Sequence::from(others)))
}

/// Why a payload is not a body for a step, where it is not one.
fn no_body(alloc: Global, step: &str, payload: &[u8]) -> Result<Option<Finding>, AllocError>
    ensures { IfOk result (λ found. MatchOption found
        ((body : Body) × BodyOf step.now payload.now body) (IsNoBody step.now payload.now)) }
{
    match link_in(alloc, payload)? {
        Some(link) if link.name.as_str() == step => Ok(None),
        Some(link) => Ok(Some(Finding::OtherName(link.name))),
        None => {
            if is_layout(alloc, payload)? {
                return Ok(None);
            }
            Ok(Some(Finding::NeitherLinkNorLayout))
        }
    }
}

fn is_layout(alloc: Global, payload: &[u8]) -> Result<bool, AllocError>
    ensures { IfOk result
        (λ is. IsTrue is ↔ ((layout : Layout) × LayoutOf payload.now layout)) }
{
    Ok(layout_in(alloc, payload)?.is_some())
}
