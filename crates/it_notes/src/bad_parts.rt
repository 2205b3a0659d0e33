//! What is wrong with a document that does not read.
ghost use Rattle.std.specs.Prelude.{◌≡◌, IfOk};
ghost use Rattle.it_dsse.specs.Envelope.{EnvelopeOf};
ghost use Rattle.it_dsse.specs.Panel.{Panel};
ghost use Rattle.it_report.specs.declared.refusal.Fault.TheVariants.{BadLayout, BadMoment};
ghost use Rattle.it_report.specs.declared.refusal.Fault.TheVariants.{BadPolicy, NoFiles};
ghost use Rattle.it_verify.specs.declared.inputs.Inputs.{Inputs};
ghost use Rattle.it_notes.specs.DigestLists.{bad_line, list_in};
ghost use Rattle.it_notes.specs.RefusalNotes.{TellsInputs};
ghost use Rattle.it_part_notes.specs.Moments.{moment_line};
ghost use Rattle.it_part_notes.specs.PartLines.{part_line};
ghost use Rattle.it_part_notes.specs.SumLine.{sum_line};
ghost use Rattle.it_notes.specs.NoteLines.{list_words as list_words_of, no_line, returned_line};

use crate::lines::Line;
use crate::notes::RefusalNotes;
use crate::record_note::push_words;
use it_borrowed::document_text::DocumentText;
use it_digest::sums::ListAlgorithm;
use it_docs::layout_fault::LayoutPart;
use it_docs::policy_fault::PolicyPart;
use it_dsse::envelope::Envelope;
use it_part_notes::layout_part_note::layout_part_note;
use it_part_notes::moment_note::{MomentNote, moment_note};
use it_part_notes::part_note::PartNote;
use it_part_notes::policy_part_note::policy_part_note;
use it_part_notes::sum_line_note::{SumLineNote, sum_line_note};
use it_verify::inputs::Inputs;
use json::Scratch;
use std::alloc::{AllocError, Global};

/// What is wrong with the policy in its first part that fails.
pub(crate) fn policy_told(
    alloc: Global,
    inputs: &Inputs,
    part: PolicyPart,
) -> Result<RefusalNotes, AllocError>
    ensures { IfOk result
        (λ told. (panel : Panel) → TellsInputs panel inputs.now (BadPolicy part) told) }
{
    let mut scratch = Scratch::new(alloc);
    let policy = DocumentText::read(alloc, inputs.policy.as_slice(), &mut scratch)?;
    match policy_part_note(alloc, &policy, part)? {
        Some(note) => Ok(RefusalNotes::Part(note)),
        None => Ok(RefusalNotes::Nothing),
    }
}

/// What is wrong with the first bad line of the digest list by an algorithm.
pub(crate) fn line_told(
    alloc: Global,
    inputs: &Inputs,
    algorithm: ListAlgorithm,
    number: u64,
) -> Result<RefusalNotes, AllocError>
    ensures { IfOk result
        (λ told. (panel : Panel) → TellsInputs panel inputs.now (bad_line algorithm number) told) }
{
    match sum_line_note(alloc, algorithm, list_by(inputs, algorithm), number)? {
        Some(note) => Ok(RefusalNotes::Line(note)),
        None => Ok(RefusalNotes::Nothing),
    }
}

/// The digest list by an algorithm.
pub(crate) fn list_by(inputs: &Inputs, algorithm: ListAlgorithm) -> &[u8]
    ensures { result.now ≡ list_in algorithm inputs.now }
{
    match algorithm {
        ListAlgorithm::Sha256 => inputs.sums.as_slice(),
        ListAlgorithm::Sha512 => inputs.sums512.as_slice(),
    }
}

/// What is wrong with the moment.
pub(crate) fn moment_told(alloc: Global, inputs: &Inputs) -> Result<RefusalNotes, AllocError>
    ensures { IfOk result
        (λ told. (panel : Panel) → TellsInputs panel inputs.now BadMoment told) }
{
    match moment_note(alloc, inputs.moment.as_str())? {
        Some(note) => Ok(RefusalNotes::Moment(note)),
        None => Ok(RefusalNotes::Nothing),
    }
}

/// That the digest lists are empty.
pub(crate) fn no_line_told(inputs: &Inputs) -> RefusalNotes
    ensures { (panel : Panel) → TellsInputs panel inputs.now NoFiles result }
{
    if inputs.sums.as_slice().is_empty() && inputs.sums512.as_slice().is_empty() {
        RefusalNotes::NoLine
    } else {
        RefusalNotes::Nothing
    }
}

/// What is wrong with the layout in its envelope, in its first part that fails.
pub(crate) fn layout_told(
    alloc: Global,
    envelope: &Envelope,
    part: &LayoutPart,
) -> Result<RefusalNotes, AllocError>
    ensures { (inputs : Inputs) → EnvelopeOf inputs.layout envelope.now → IfOk result
        (λ told. (panel : Panel) → TellsInputs panel inputs (BadLayout part.now) told) }
{
    let mut scratch = Scratch::new(alloc);
    let layout = DocumentText::read(alloc, envelope.payload.as_slice(), &mut scratch)?;
    match layout_part_note(alloc, &layout, part)? {
        Some(note) => Ok(RefusalNotes::Part(note)),
        None => Ok(RefusalNotes::Nothing),
    }
}

impl Line for PartNote {
    ghost line = { part_line };

    fn push_line(&self, text: &mut Vec<u8>) -> Result<(), AllocError> {
        PartNote::push_line(self, text)
    }
}

impl Line for SumLineNote {
    ghost line = { sum_line };

    fn push_line(&self, text: &mut Vec<u8>) -> Result<(), AllocError> {
        SumLineNote::push_line(self, text)
    }
}

impl Line for MomentNote {
    ghost line = { moment_line };

    fn push_line(&self, text: &mut Vec<u8>) -> Result<(), AllocError> {
        MomentNote::push_line(self, text)
    }
}

/// That the digest lists are empty.
#[derive(Drop)]
pub(crate) struct NoLine;

impl Line for NoLine {
    ghost line = { λ note. no_line };

    fn push_line(&self, text: &mut Vec<u8>) -> Result<(), AllocError> {
        push_words(text, "digest list: it is empty\n")
    }
}

/// That the first line of the digest list by an algorithm ends with a carriage return.
#[derive(Drop)]
pub(crate) struct ReturnedLine {
    pub(crate) algorithm: ListAlgorithm,
}

impl Line for ReturnedLine {
    ghost line = { λ note. returned_line note.algorithm };

    fn push_line(&self, text: &mut Vec<u8>) -> Result<(), AllocError> {
        push_words(text, list_words(self.algorithm))?;
        push_words(
            text,
            ": line 1 ends with a carriage return, which belongs to its path\n",
        )
    }
}

fn list_words(algorithm: ListAlgorithm) -> &'static str
    ensures { result.now ≡ list_words_of algorithm }
{
    match algorithm {
        ListAlgorithm::Sha256 => "digest list",
        ListAlgorithm::Sha512 => "digest list by SHA-512",
    }
}
