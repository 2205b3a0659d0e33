//! What is wrong with documents that do not read, as notes.
use crate::documents::{LayoutReading, PolicyReading, Readings};
use crate::writing::{push_quoted, push_text};
use it_base::sequence::Sequence;
use it_borrowed::document_text::DocumentText;
use it_borrowed::parts::from_bytes;
use it_docs::layout_fault::LayoutPart;
use it_dsse::envelope::Envelope;
use it_dsse::payload_type::IN_TOTO;
use it_part_notes::envelope_part_note::envelope_part_note;
use it_part_notes::layout_part_note::layout_part_note;
use it_part_notes::part_note::PartNote;
use it_part_notes::policy_part_note::policy_part_note;
use it_report::refusal::Fault;
use json::Scratch;
use std::alloc::{AllocError, Global};
use std::io::Write;

/// Writes what is wrong with the documents that do not read, by what they read as, as far as memory
/// suffices and it can be written.
pub(crate) fn write_part_notes<N: Write>(
    alloc: Global,
    policy: &Option<Sequence<u8>>,
    layout: &Option<Sequence<u8>>,
    readings: &Readings,
    notes: &mut N,
) {
    if let Ok(text) = notes_text(alloc, policy, layout, readings) {
        let _ = notes.write_all(text.as_slice());
    }
}

fn notes_text(
    alloc: Global,
    policy: &Option<Sequence<u8>>,
    layout: &Option<Sequence<u8>>,
    readings: &Readings,
) -> Result<Vec<u8>, AllocError> {
    let mut text = Vec::new(alloc);
    push_policy_note(alloc, &mut text, policy, &readings.policy)?;
    push_layout_note(alloc, &mut text, layout, &readings.layout)?;
    Ok(text)
}

fn push_policy_note(
    alloc: Global,
    text: &mut Vec<u8>,
    policy: &Option<Sequence<u8>>,
    reading: &Option<PolicyReading>,
) -> Result<(), AllocError> {
    match (policy, reading) {
        (Some(bytes), Some(PolicyReading::Bad(refusal))) => {
            push_bad_policy(alloc, text, bytes.as_slice(), &refusal.fault)
        }
        _ => Ok(()),
    }
}

fn push_bad_policy(
    alloc: Global,
    text: &mut Vec<u8>,
    bytes: &[u8],
    fault: &Fault,
) -> Result<(), AllocError> {
    match fault {
        Fault::BadPolicy(part) => {
            let mut scratch = Scratch::new(alloc);
            let policy = DocumentText::read(alloc, bytes, &mut scratch)?;
            push_note(text, policy_part_note(alloc, &policy, *part)?)
        }
        _ => Ok(()),
    }
}

fn push_layout_note(
    alloc: Global,
    text: &mut Vec<u8>,
    layout: &Option<Sequence<u8>>,
    reading: &Option<LayoutReading>,
) -> Result<(), AllocError> {
    match (layout, reading) {
        (Some(bytes), Some(LayoutReading::Bad(refusal))) => {
            push_bad_layout(alloc, text, bytes.as_slice(), &refusal.fault)
        }
        _ => Ok(()),
    }
}

fn push_bad_layout(
    alloc: Global,
    text: &mut Vec<u8>,
    bytes: &[u8],
    fault: &Fault,
) -> Result<(), AllocError> {
    match (fault, from_bytes::<Envelope>(alloc, bytes)?) {
        (Fault::BadLayout(part), Some(envelope)) => {
            push_layout_part(alloc, text, envelope.payload.as_slice(), part)
        }
        (Fault::BadLayout(part), None) => push_layout_part(alloc, text, bytes, part),
        (_, Some(envelope)) => push_type(text, envelope.payload_type.as_str()),
        (_, None) => push_envelope_note(alloc, text, bytes),
    }
}

fn push_layout_part(
    alloc: Global,
    text: &mut Vec<u8>,
    body: &[u8],
    part: &LayoutPart,
) -> Result<(), AllocError> {
    let mut scratch = Scratch::new(alloc);
    let layout = DocumentText::read(alloc, body, &mut scratch)?;
    push_note(text, layout_part_note(alloc, &layout, part)?)
}

fn push_type(text: &mut Vec<u8>, found: &str) -> Result<(), AllocError> {
    push_text(text, "layout: its payload type is ")?;
    push_quoted(text, found)?;
    push_text(text, " where ")?;
    push_quoted(text, IN_TOTO)?;
    push_text(text, " is expected\n")
}

fn push_envelope_note(alloc: Global, text: &mut Vec<u8>, bytes: &[u8]) -> Result<(), AllocError> {
    let note = envelope_part_note(alloc, bytes)?;
    if note.is_some() {
        push_text(text, "layout: ")?;
    }
    push_note(text, note)
}

fn push_note(text: &mut Vec<u8>, note: Option<PartNote>) -> Result<(), AllocError> {
    match note {
        Some(note) => note.push_line(text),
        None => Ok(()),
    }
}
