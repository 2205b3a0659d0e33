//! The details of a file of a step.
ghost use Rattle.std.specs.Prelude.{◌≡◌, ◌++◌, OnOk};
ghost use Rattle.std.specs.List.{flat_map};
ghost use Rattle.it_notes.specs.FileDetails.{detail_form, detail_line, id_form, tried_form};
ghost use Rattle.it_notes.specs.FileDetails.{words_before};

use it_base::sequence::Sequence;
use it_base::text::Text;
use it_part_notes::part_note::PartNote;
use it_report::name::push_cut_name;
use it_step_notes::note::StepNote;
use std::alloc::AllocError;

/// A note on a step, and the details of the file that it is about.
#[derive(Drop)]
pub struct DetailedNote {
    /// The note on the step.
    pub note: StepNote,
    /// The details, if there are any.
    pub detail: Option<FileDetail>,
}

/// The details of a file that does not count for a step.
#[derive(Drop)]
pub struct FileDetail {
    /// The name of the file.
    pub name: Text,
    /// Which detail it is.
    pub detail: Detail,
}

/// Why a file does not count for a step.
#[derive(Drop)]
pub enum Detail {
    /// Why it is not an envelope, or its envelope's payload not a link.
    Part(PartNote),
    /// Its signatures are tried for these key ids of the step, by their hints, and for no others.
    Tried(Sequence<Text>),
}

impl FileDetail {
    /// Appends its line, with names as `push_cut_name` writes them.
    ///
    /// # Errors
    ///
    /// `AllocError` where memory was refused; a part of the line may have been appended then.
    pub fn push_line(&self, text: &mut Vec<u8>) -> Result<(), AllocError>
        ensures { OnOk result (text.new.items ≡ text.old.items ++ detail_line self.now) }
    {
        push_cut_name(text, self.name.as_str().as_bytes())?;
        text.extend_from_slice(b": ")?;
        push_detail(text, &self.detail)
    }
}

fn push_detail(text: &mut Vec<u8>, detail: &Detail) -> Result<(), AllocError>
    ensures { OnOk result (text.new.items ≡ text.old.items ++ detail_form detail.now) }
{
    match detail {
        Detail::Part(part) => part.push_line(text),
        Detail::Tried(ids) => {
            push_tried(text, ids.as_slice())?;
            text.push(b'\n')?;
            Ok(())
        }
    }
}

fn push_tried(text: &mut Vec<u8>, ids: &[Text]) -> Result<(), AllocError>
    ensures { OnOk result (text.new.items ≡ text.old.items ++ tried_form ids.now) }
{
    text.extend_from_slice(tried_words(ids).as_bytes())?;
    push_each(text, ids)
}

fn tried_words(ids: &[Text]) -> &'static str
    ensures { result.now ≡ words_before ids.now }
{
    if ids.is_empty() {
        return "by keyid, no signature is tried for a key id of the step";
    }
    "by keyid, signatures are tried for"
}

fn push_each(text: &mut Vec<u8>, ids: &[Text]) -> Result<(), AllocError>
    ensures { OnOk result (text.new.items ≡ text.old.items ++ flat_map id_form ids.now) }
{
    for id in ids {
        push_id(text, id)?;
    }
    Ok(())
}

fn push_id(text: &mut Vec<u8>, id: &Text) -> Result<(), AllocError>
    ensures { OnOk result (text.new.items ≡ text.old.items ++ id_form id.now) }
{
    text.push(b' ')?;
    push_cut_name(text, id.as_str().as_bytes())
}
