//! The text of a note.
ghost use Rattle.std.specs.Prelude.{◌≡◌, ◌++◌, OnOk};
ghost use Rattle.std.specs.List.{flat_map};
ghost use Rattle.it_report.specs.Name.{cut_form};
ghost use Rattle.it_step_notes.specs.Line.{behind, details_of, finding_form, note_form, note_line};
ghost use Rattle.it_step_notes.specs.Line.{phrase_of};

use crate::note::{Finding, StepNote};
use it_base::text::Text;
use it_report::name::push_cut_name;
use std::alloc::AllocError;

impl StepNote {
    /// Appends the line of the note, with names as `push_cut_name` writes them.
    ///
    /// # Errors
    ///
    /// `AllocError` where memory was refused; a part of the line may have been appended then.
    pub fn push_line(&self, text: &mut Vec<u8>) -> Result<(), AllocError>
        ensures { OnOk result (text.new.items ≡ text.old.items ++ note_line self.now) }
    {
        push_note(text, self)?;
        text.push(b'\n')?;
        Ok(())
    }
}

fn push_note(text: &mut Vec<u8>, note: &StepNote) -> Result<(), AllocError>
    ensures { OnOk result (text.new.items ≡ text.old.items ++ note_form note.now) }
{
    match note {
        StepNote::File { name, finding } => push_finding(text, name, finding),
        StepNote::NoKeyObject { id } => push_said(text, id, ": the layout has no key of this id"),
        StepNote::NoFile { id, name } => {
            push_said(text, name, ": no such file, for the key id")?;
            push_behind(text, " ", id)
        }
        StepNote::NearlyClaims { name } => {
            push_said(text, name, ": nearly named as a file for the step")
        }
    }
}

fn push_finding(text: &mut Vec<u8>, name: &Text, finding: &Finding) -> Result<(), AllocError>
    ensures { OnOk result (text.new.items
        ≡ text.old.items ++ finding_form name.now finding.now) }
{
    push_said(text, name, phrase(finding))?;
    push_details(text, finding)
}

fn phrase(finding: &Finding) -> &'static str
    ensures { result.now ≡ phrase_of finding.now }
{
    match finding {
        Finding::NoEnvelope => ": no DSSE envelope",
        Finding::PayloadType(_) => ": of another payload type,",
        Finding::NoSignature(_) => ": signed by no key of the step",
        Finding::Unsigned => ": signed by no key of the step, and not tried with others",
        Finding::NeitherLinkNorLayout => ": neither a link nor a layout",
        Finding::OtherName(_) => ": a link of another name,",
        Finding::Counts(_) => ": counts for",
    }
}

fn push_details(text: &mut Vec<u8>, finding: &Finding) -> Result<(), AllocError>
    ensures { OnOk result (text.new.items ≡ text.old.items ++ details_of finding.now) }
{
    match finding {
        Finding::NoEnvelope => Ok(()),
        Finding::PayloadType(other) => push_behind(text, " ", other),
        Finding::NoSignature(others) => push_each(text, ", but by ", others.as_slice()),
        Finding::Unsigned => Ok(()),
        Finding::NeitherLinkNorLayout => Ok(()),
        Finding::OtherName(name) => push_behind(text, " ", name),
        Finding::Counts(ids) => push_each(text, " ", ids.as_slice()),
    }
}

fn push_each(text: &mut Vec<u8>, prefix: &str, names: &[Text]) -> Result<(), AllocError>
    ensures { OnOk result (text.new.items
        ≡ text.old.items ++ flat_map (behind prefix.now) names.now) }
{
    for name in names {
        push_behind(text, prefix, name)?;
    }
    Ok(())
}

fn push_behind(text: &mut Vec<u8>, prefix: &str, name: &Text) -> Result<(), AllocError>
    ensures { OnOk result (text.new.items ≡ text.old.items ++ behind prefix.now name.now) }
{
    text.extend_from_slice(prefix.as_bytes())?;
    push_cut_name(text, name.as_str().as_bytes())
}

fn push_said(text: &mut Vec<u8>, name: &Text, phrase: &str) -> Result<(), AllocError>
    ensures { OnOk result (text.new.items ≡ text.old.items ++ cut_form name.now ++ phrase.now) }
{
    push_cut_name(text, name.as_str().as_bytes())?;
    text.extend_from_slice(phrase.as_bytes())
}
