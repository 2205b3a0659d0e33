//! The details of the files that a step's notes are about.
ghost use Rattle.std.specs.Prelude.{◌≡◌, All, Contains, IfOk, IfSome, filter, map};
ghost use Rattle.std.specs.List.{list_any};
ghost use Rattle.it_dsse.specs.Signed.{is_admitted};
ghost use Rattle.it_notes.specs.FileDetails.{TellsBytes, TellsDetail, TellsPayload, TellsTried};
ghost use Rattle.it_notes.specs.FileDetails.{tried_ids};
ghost use Rattle.it_part_notes.specs.PartNotes.{TellsEnvelope};

use crate::file_detail::{Detail, DetailedNote, FileDetail};
use crate::room::Room;
use it_base::sequence::Sequence;
use it_base::text::Text;
use it_chain::bundle::Bundle;
use it_chain::held_file::HeldFile;
use it_docs::step::Step;
use it_dsse::envelope::{Envelope, Signature};
use it_part_notes::envelope_part_note::envelope_part_note;
use it_part_notes::link_part_note::link_part_note;
use it_part_notes::part_note::PartNote;
use it_step_notes::note::{Finding, StepNote};
use std::alloc::{AllocError, Global};

/// The notes on a step over a bundle, each with the details of its file. Files that are not
/// envelopes are looked at only as far as there is room for them.
pub(crate) fn with_details(
    alloc: Global,
    bundle: &Bundle,
    step: &Step,
    notes: Vec<StepNote>,
) -> Result<Vec<DetailedNote>, AllocError>
    ensures same { IfOk result (λ told. map (λ each. each.note) told.items ≡ notes.items) }
    ensures details { IfOk result (λ told.
        All (λ each. IfSome each.detail (TellsDetail bundle.now step.now each.note)) told.items) }
{
    let mut told = Vec::new(alloc);
    let mut room = Room::new();
    for note in notes {
        let detail = detail_of(alloc, bundle, step, &note, &mut room)?;
        told.push(DetailedNote { note, detail })?;
    }
    Ok(told)
}

/// The details of the file that a note is about: the first of that name, if several.
fn detail_of(
    alloc: Global,
    bundle: &Bundle,
    step: &Step,
    note: &StepNote,
    room: &mut Room,
) -> Result<Option<FileDetail>, AllocError>
    ensures { IfOk result (λ found. IfSome found (TellsDetail bundle.now step.now note.now)) }
{
    let StepNote::File { name, finding } = note else {
        return Ok(None);
    };
    let Some(file) = file_named(bundle.files(), name.as_str()) else {
        return Ok(None);
    };
    let Some(detail) = detail_in(alloc, step, file, finding, room)? else {
        return Ok(None);
    };
    let name = Text::copy(alloc, name.as_str())?;
    Ok(Some(FileDetail { name, detail }))
}

/// The first file of this name.
fn file_named<'a>(files: &'a [HeldFile], name: &str) -> Option<&'a HeldFile>
    ensures { IfSome result (λ file. Contains files.now file.now × (file.now.name ≡ name.now)) }
{
    for file in files {
        if file.name() == name {
            return Some(file);
        }
    }
    None
}

/// The details of a file, by what it is found to be for a step. A payload that no key of the step
/// signed is not looked into.
fn detail_in(
    alloc: Global,
    step: &Step,
    file: &HeldFile,
    finding: &Finding,
    room: &mut Room,
) -> Result<Option<Detail>, AllocError>
    ensures { IfOk result (λ found.
        IfSome found (TellsBytes step.now finding.now file.now.bytes)) }
{
    match finding {
        Finding::NoEnvelope => Ok(envelope_part(alloc, file, room)?.map(Detail::Part)),
        Finding::NeitherLinkNorLayout => Ok(payload_part(alloc, file)?.map(Detail::Part)),
        Finding::NoSignature(_) => Ok(tried_in(alloc, step, file)?.map(Detail::Tried)),
        _ => Ok(None),
    }
}

/// Why a file's bytes are not an envelope, where there is room for them.
fn envelope_part(
    alloc: Global,
    file: &HeldFile,
    room: &mut Room,
) -> Result<Option<PartNote>, AllocError>
    ensures { IfOk result (λ found. IfSome found (TellsEnvelope file.now.bytes)) }
{
    let Some(bytes) = file.unread() else {
        return Ok(None);
    };
    if !room.takes(bytes.len()) {
        return Ok(None);
    }
    envelope_part_note(alloc, bytes)
}

/// Why the payload of the envelope in a file is not a link.
fn payload_part(alloc: Global, file: &HeldFile) -> Result<Option<PartNote>, AllocError>
    ensures { IfOk result (λ found. IfSome found (TellsPayload file.now.bytes)) }
{
    let Some(envelope) = file.envelope() else {
        return Ok(None);
    };
    link_part_note(alloc, envelope.payload.as_slice())
}

/// For which key ids of a step the signatures of the envelope in a file are tried.
fn tried_in(
    alloc: Global,
    step: &Step,
    file: &HeldFile,
) -> Result<Option<Sequence<Text>>, AllocError>
    ensures { IfOk result (λ found. IfSome found (TellsTried step.now file.now.bytes)) }
{
    let Some(envelope) = file.envelope() else {
        return Ok(None);
    };
    let ids = tried_for(alloc, step, envelope)?;
    Ok(Some(Sequence::from(ids)))
}

/// The key ids of a step for which a signature of an envelope is tried.
fn tried_for(alloc: Global, step: &Step, envelope: &Envelope) -> Result<Vec<Text>, AllocError>
    ensures { IfOk result (λ ids. ids.items ≡ tried_ids step.now envelope.now) }
{
    let mut ids = Vec::new(alloc);
    for id in step.pubkeys.as_slice() {
        if is_tried(envelope.signatures.as_slice(), id.as_str()) {
            ids.push(Text::copy(alloc, id.as_str())?)?;
        }
    }
    Ok(ids)
}

/// Whether one of the signatures is tried for a key id.
fn is_tried(signatures: &[Signature], id: &str) -> bool
    ensures { result ≡ list_any (is_admitted id.now) signatures.now }
{
    signatures.iter().any(|signature| signature.is_admitted(id))
}
