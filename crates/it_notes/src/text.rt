//! The notes as lines for people.
ghost use Rattle.std.specs.Prelude.{IfOk, OnOk, map};
ghost use Rattle.std.specs.List.{flat_map};
ghost use Rattle.std.specs.Option.{option_to_list};
ghost use Rattle.it_notes.specs.NoteLines.{judged_lines, layout_lines, member_lines, note_lines};
ghost use Rattle.it_notes.specs.NoteLines.{place_lines, refusal_lines, returned_line, rule_lines};
ghost use Rattle.it_notes.specs.NoteLines.{step_lines};
ghost use Rattle.it_notes.specs.ShownLines.{Adds, Hold};

use crate::bad_parts::{NoLine, ReturnedLine};
use crate::file_detail::DetailedNote;
use crate::layout_notes::LayoutNotes;
use crate::lines::{Line, Lines};
use crate::notes::{Notes, RefusalNotes, RuleNotes};
use crate::place_notes::PlaceNotes;
use crate::provenance_lines::{EmptyProvenance, LaidOut};
use it_digest::sums::ListAlgorithm;
use it_member_notes::member_notes::MemberNotes;
use it_rule_notes::judged_note::JudgedNote;
use std::alloc::{AllocError, Global};

impl Notes<'_> {
    /// The lines for people, of which at most 40 are written: those on the refusal first, then
    /// those on the policy and the layout. Names are written as `push_cut_name` does.
    ///
    /// # Errors
    ///
    /// `AllocError` where memory was refused.
    pub fn lines(&self, alloc: Global) -> Result<Lines, AllocError>
        ensures { IfOk result (λ lines. Hold lines (note_lines self.now)) }
    {
        let mut lines = Lines::new(alloc);
        self.add_to(&mut lines)?;
        Ok(lines)
    }

    fn add_to(&self, lines: &mut Lines) -> Result<(), AllocError>
        ensures { OnOk result (Adds (note_lines self.now) lines.old lines.new) }
    {
        add_place(lines, &self.place)?;
        self.refusal.add_to(lines)?;
        lines.add_all(self.keys.as_slice())?;
        add_members(lines, self.policy)?;
        add_layout(lines, &self.layout)?;
        Ok(())
    }
}

/// Adds the notes on the place of a sublayout, if there is one.
fn add_place(lines: &mut Lines, place: &Option<PlaceNotes>) -> Result<(), AllocError>
    ensures { OnOk result
        (Adds (flat_map place_lines (option_to_list place.now)) lines.old lines.new) }
{
    match place {
        Some(place) => place.add_to(lines),
        None => Ok(()),
    }
}

/// Adds the notes on a layout, if there is one.
fn add_layout(lines: &mut Lines, layout: &Option<LayoutNotes>) -> Result<(), AllocError>
    ensures { OnOk result
        (Adds (flat_map layout_lines (option_to_list layout.now)) lines.old lines.new) }
{
    match layout {
        Some(layout) => layout.add_to(lines),
        None => Ok(()),
    }
}

impl RefusalNotes {
    fn add_to(&self, lines: &mut Lines) -> Result<(), AllocError>
        ensures { OnOk result (Adds (refusal_lines self.now) lines.old lines.new) }
    {
        match self {
            RefusalNotes::Nothing => Ok(()),
            RefusalNotes::Part(note) => lines.add(note),
            RefusalNotes::Envelope(note) => lines.add(note),
            RefusalNotes::Line(note) => lines.add(note),
            RefusalNotes::Moment(note) => lines.add(note),
            RefusalNotes::NoLine => lines.add(&NoLine),
            RefusalNotes::Step(notes) => add_step(lines, notes.as_slice()),
            RefusalNotes::Owners(notes) => lines.add_all(notes.as_slice()),
            RefusalNotes::Expiry(note) => lines.add(note),
            RefusalNotes::Payloads(note) => lines.add(note),
            RefusalNotes::Disagreement(note) => lines.add(note),
            RefusalNotes::Rule(notes) => notes.add_to(lines),
            RefusalNotes::Provenance(notes) => lines.add_all(notes.as_slice()),
            RefusalNotes::LaidOut => lines.add(&LaidOut),
            RefusalNotes::EmptyProvenance => lines.add(&EmptyProvenance),
            RefusalNotes::Patterns(note) => lines.add(note),
            RefusalNotes::Record(note) => lines.add(note),
        }
    }
}

/// Adds the notes on a step, with the details of a file right after its note.
fn add_step(lines: &mut Lines, notes: &[DetailedNote]) -> Result<(), AllocError>
    ensures { OnOk result (Adds (flat_map step_lines notes.now) lines.old lines.new) }
{
    for told in notes {
        lines.add(&told.note)?;
        add_some(lines, &told.detail)?;
    }
    Ok(())
}

impl PlaceNotes {
    fn add_to(&self, lines: &mut Lines) -> Result<(), AllocError>
        ensures { OnOk result (Adds (place_lines self.now) lines.old lines.new) }
    {
        add_some(lines, &self.file)?;
        add_some(lines, &self.folder)
    }
}

impl RuleNotes {
    fn add_to(&self, lines: &mut Lines) -> Result<(), AllocError>
        ensures { OnOk result (Adds (rule_lines self.now) lines.old lines.new) }
    {
        lines.add(&self.rule)?;
        add_some(lines, &self.met)?;
        add_judged(lines, &self.delivery)?;
        add_returned(lines, self.returns)?;
        Ok(())
    }
}

/// Adds the line of a note, if there is one.
fn add_some<N: Line>(lines: &mut Lines, note: &Option<N>) -> Result<(), AllocError>
    ensures { OnOk result (Adds (map N.line (option_to_list note.now)) lines.old lines.new) }
{
    match note {
        Some(note) => lines.add(note),
        None => Ok(()),
    }
}

/// Adds what a rule on what is delivered met, and why.
fn add_judged(lines: &mut Lines, judged: &Option<JudgedNote>) -> Result<(), AllocError>
    ensures { OnOk result
        (Adds (flat_map judged_lines (option_to_list judged.now)) lines.old lines.new) }
{
    let Some(note) = judged else {
        return Ok(());
    };
    lines.add(&note.met)?;
    lines.add_all(note.causes.as_slice())
}

/// Adds that the first line of a digest list ends with a carriage return.
fn add_returned(lines: &mut Lines, returns: Option<ListAlgorithm>) -> Result<(), AllocError>
    ensures { OnOk result
        (Adds (map returned_line (option_to_list returns)) lines.old lines.new) }
{
    match returns {
        Some(algorithm) => lines.add(&ReturnedLine { algorithm }),
        None => Ok(()),
    }
}

impl LayoutNotes {
    fn add_to(&self, lines: &mut Lines) -> Result<(), AllocError>
        ensures { OnOk result (Adds (layout_lines self.now) lines.old lines.new) }
    {
        lines.add_all(self.deliver.as_slice())?;
        add_members(lines, &self.members)?;
        lines.add_all(self.rules.as_slice())
    }
}

/// Adds the notes on members: those on key objects after the others.
fn add_members(lines: &mut Lines, notes: &MemberNotes) -> Result<(), AllocError>
    ensures { OnOk result (Adds (member_lines notes.now) lines.old lines.new) }
{
    lines.add_all(notes.unread.as_slice())?;
    lines.add_all(notes.keys.as_slice())
}
