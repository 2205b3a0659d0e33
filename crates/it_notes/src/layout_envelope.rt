//! What is wrong with the envelope of the layout.
ghost use Rattle.std.specs.Prelude.{◌≡◌, ◌++◌, IfOk, OnOk};
ghost use Rattle.it_dsse.specs.Envelope.{EnvelopeOf};
ghost use Rattle.it_dsse.specs.Panel.{Panel};
ghost use Rattle.it_report.specs.declared.refusal.Fault.TheVariants.{BadEnvelope, WrongPayloadType};
ghost use Rattle.it_verify.specs.declared.inputs.Inputs.{Inputs};
ghost use Rattle.it_notes.specs.LayoutEnvelope.{envelope_line, expected_form, type_line};
ghost use Rattle.it_notes.specs.RefusalNotes.{TellsInputs};

use crate::lines::Line;
use crate::notes::RefusalNotes;
use it_base::text::Text;
use it_dsse::envelope::Envelope;
use it_dsse::payload_type::IN_TOTO;
use it_part_notes::envelope_part_note::envelope_part_note;
use it_part_notes::part_note::PartNote;
use it_report::name::push_cut_name;
use it_verify::inputs::Inputs;
use std::alloc::{AllocError, Global};

/// What is wrong with what was given as the envelope of the layout.
#[derive(Drop)]
pub enum EnvelopeNote {
    /// It is no envelope, for this reason.
    NoEnvelope(PartNote),
    /// Its payload is of this type, and not of in-toto's.
    OtherType(Text),
}

impl EnvelopeNote {
    /// Appends the note as a line for people, with names as `push_cut_name` writes them.
    ///
    /// # Errors
    ///
    /// `AllocError` where memory was refused; a part of the line may have been appended then.
    pub fn push_line(&self, text: &mut Vec<u8>) -> Result<(), AllocError>
        ensures { OnOk result (text.new.items ≡ text.old.items ++ envelope_line self.now) }
    {
        match self {
            EnvelopeNote::NoEnvelope(note) => {
                text.extend_from_slice(b"layout: ")?;
                note.push_line(text)
            }
            EnvelopeNote::OtherType(found) => push_type(text, found),
        }
    }
}

impl Line for EnvelopeNote {
    ghost line = { envelope_line };

    fn push_line(&self, text: &mut Vec<u8>) -> Result<(), AllocError> {
        EnvelopeNote::push_line(self, text)
    }
}

fn push_type(text: &mut Vec<u8>, found: &Text) -> Result<(), AllocError>
    ensures { OnOk result (text.new.items ≡ text.old.items ++ type_line found.now) }
{
    text.extend_from_slice(b"layout: its payload type is ")?;
    push_cut_name(text, found.as_str().as_bytes())?;
    push_expected(text)
}

#[tactic(auto, unfolding(crate::specs::LayoutEnvelope::expected_form))]
fn push_expected(text: &mut Vec<u8>) -> Result<(), AllocError>
    ensures { OnOk result (text.new.items ≡ text.old.items ++ expected_form) }
{
    text.extend_from_slice(b" where application/vnd.in-toto+json is expected\n")?;
    Ok(())
}

/// Why the file of the layout is no envelope.
pub(crate) fn envelope_told(alloc: Global, inputs: &Inputs) -> Result<RefusalNotes, AllocError>
    ensures { IfOk result
        (λ told. (panel : Panel) → TellsInputs panel inputs.now BadEnvelope told) }
{
    match envelope_part_note(alloc, inputs.layout.as_slice())? {
        Some(note) => Ok(RefusalNotes::Envelope(EnvelopeNote::NoEnvelope(note))),
        None => Ok(RefusalNotes::Nothing),
    }
}

/// Under which other type than in-toto's the layout in an envelope is signed.
pub(crate) fn type_told(alloc: Global, envelope: &Envelope) -> Result<RefusalNotes, AllocError>
    ensures { (inputs : Inputs) → EnvelopeOf inputs.layout envelope.now → IfOk result
        (λ told. (panel : Panel) → TellsInputs panel inputs WrongPayloadType told) }
{
    if envelope.payload_type.as_str() == IN_TOTO {
        return Ok(RefusalNotes::Nothing);
    }
    let found = Text::copy(alloc, envelope.payload_type.as_str())?;
    Ok(RefusalNotes::Envelope(EnvelopeNote::OtherType(found)))
}
