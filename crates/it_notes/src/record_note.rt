//! Why an inspection has no record that counts.
ghost use Rattle.std.specs.Prelude.{◌≡◌, ◌++◌, OnOk};
ghost use Rattle.std.specs.List.{flat_map};
ghost use Rattle.it_notes.specs.NoteLines.{file_form, names_form, other_file_form};
ghost use Rattle.it_notes.specs.NoteLines.{other_names_form, others_form};
ghost use Rattle.it_notes.specs.NoteLines.{record_line, told_file};

use it_base::sequence::Sequence;
use it_base::text::Text;
use it_report::name::push_cut_name;
use std::alloc::AllocError;

/// A note on the record of an inspection.
#[derive(Drop)]
pub struct RecordNote {
    /// The name of the inspection.
    pub name: Text,
    /// Why it has no record that counts.
    pub flaw: RecordFlaw,
}

/// Why an inspection has no record that counts.
#[derive(Drop)]
pub enum RecordFlaw {
    /// No record was given.
    NoRecords,
    /// Records of other names were given.
    OtherNames {
        /// The names of the first ten.
        names: Sequence<Text>,
        /// Whether there are others.
        others: bool,
    },
    /// The record is an envelope, where it is to be the link itself.
    InEnvelope,
}

impl RecordNote {
    /// Appends the note as a line for people, with names as `push_cut_name` writes them.
    ///
    /// # Errors
    ///
    /// `AllocError` where memory was refused; a part of the line may have been appended then.
    pub fn push_line(&self, text: &mut Vec<u8>) -> Result<(), AllocError>
        ensures { OnOk result (text.new.items ≡ text.old.items ++ record_line self.now) }
    {
        let name = &self.name;
        match &self.flaw {
            RecordFlaw::NoRecords => {
                let after = " is looked for in the folder of --records\n";
                push_told(text, "records: none was given, and ", name, after)
            }
            RecordFlaw::OtherNames { names, others } => {
                push_other_names(text, name, names.as_slice(), *others)
            }
            RecordFlaw::InEnvelope => {
                let after = ": it is an envelope, where a bare link is expected\n";
                push_told(text, "record ", name, after)
            }
        }
    }
}

/// Appends that the file is not there, and which others are.
fn push_other_names(
    text: &mut Vec<u8>,
    name: &Text,
    names: &[Text],
    others: bool,
) -> Result<(), AllocError>
    ensures { OnOk result
        (text.new.items ≡ text.old.items ++ other_names_form name.now names.now others) }
{
    push_told(text, "records: there is no file ", name, ", but")?;
    push_names(text, names, others)?;
    Ok(())
}

/// Appends which other records there are.
#[tactic(auto, unfolding(crate::specs::NoteLines::names_form))]
fn push_names(text: &mut Vec<u8>, names: &[Text], others: bool) -> Result<(), AllocError>
    ensures { OnOk result (text.new.items ≡ text.old.items ++ names_form names.now others) }
{
    push_each(text, names)?;
    push_words(text, others_words(others))
}

fn others_words(others: bool) -> &'static str
    ensures { result.now ≡ others_form others }
{
    if others { " and others\n" } else { "\n" }
}

/// Appends the names of files, each after a space.
fn push_each(text: &mut Vec<u8>, names: &[Text]) -> Result<(), AllocError>
    ensures { OnOk result
        (text.new.items ≡ text.old.items ++ flat_map other_file_form names.now) }
{
    for name in names {
        push_words(text, " ")?;
        push_file(text, name)?;
    }
    Ok(())
}

/// Appends the name of the file that holds the record of an inspection between two texts.
#[tactic(auto, unfolding(crate::specs::NoteLines::told_file))]
fn push_told(text: &mut Vec<u8>, before: &str, name: &Text, after: &str) -> Result<(), AllocError>
    ensures { OnOk result
        (text.new.items ≡ text.old.items ++ told_file before.now name.now after.now) }
{
    push_words(text, before)?;
    push_file(text, name)?;
    push_words(text, after)
}

/// Appends the name of the file that holds the record of an inspection.
fn push_file(text: &mut Vec<u8>, name: &Text) -> Result<(), AllocError>
    ensures { OnOk result (text.new.items ≡ text.old.items ++ file_form name.now) }
{
    push_cut_name(text, name.as_str().as_bytes())?;
    push_words(text, ".link")
}

/// Appends a text.
pub(crate) fn push_words(text: &mut Vec<u8>, words: &str) -> Result<(), AllocError>
    ensures { OnOk result (text.new.items ≡ text.old.items ++ words.now) }
{
    text.extend_from_slice(words.as_bytes())
}
