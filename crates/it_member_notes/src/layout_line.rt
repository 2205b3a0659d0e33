//! Notes on what a layout asks for, as lines for people.
ghost use Rattle.std.specs.Prelude.{◌≡◌, ◌++◌, OnOk};
ghost use Rattle.it_member_notes.specs.PlaceWords.{named_form};
ghost use Rattle.it_member_notes.specs.RuleLines.{item_form, layout_line, no_key_object_form};
ghost use Rattle.it_member_notes.specs.RuleLines.{side_form};

use crate::layout_note::{Item, LayoutNote};
use crate::quoted::{push_quoted, push_text, push_told};
use it_base::text::Text;
use it_docs::rule::Side;
use std::alloc::{AllocError, Global};

impl LayoutNote {
    /// Appends the note as a line of English, which ends with a line feed. Names are written as
    /// reports write them.
    ///
    /// # Errors
    ///
    /// `AllocError` where memory was refused; a part of the line may have been appended then.
    pub fn push_line(&self, alloc: Global, out: &mut Vec<u8>) -> Result<(), AllocError>
        ensures { OnOk result (out.new.items ≡ out.old.items ++ layout_line self.now) }
    {
        match self {
            LayoutNote::Rules { item, side, note } => {
                note.push_subject(alloc, out, "layout")?;
                push_side(out, *side, item)?;
                note.push_predicate(out)
            }
            LayoutNote::NoKeyObject { step, id } => push_no_key_object(out, step, id),
        }
    }
}

fn push_no_key_object(out: &mut Vec<u8>, step: &Text, id: &Text) -> Result<(), AllocError>
    ensures { OnOk result (out.new.items ≡ out.old.items ++ no_key_object_form step.now id.now) }
{
    push_named(out, "layout: step ", step)?;
    let after = ", and keys has no key object of that id\n";
    push_told(out, " may be signed for by key ", id.as_str(), after)?;
    Ok(())
}

fn push_side(out: &mut Vec<u8>, side: Side, item: &Item) -> Result<(), AllocError>
    ensures { OnOk result (out.new.items ≡ out.old.items ++ side_form side item.now) }
{
    match side {
        Side::Materials => {
            push_text(out, " on the materials of ")?;
            push_item(out, item)
        }
        Side::Products => {
            push_text(out, " on the products of ")?;
            push_item(out, item)
        }
    }
}

fn push_item(out: &mut Vec<u8>, item: &Item) -> Result<(), AllocError>
    ensures { OnOk result (out.new.items ≡ out.old.items ++ item_form item.now) }
{
    match item {
        Item::Step(name) => push_named(out, "step ", name),
        Item::Inspection(name) => push_named(out, "inspection ", name),
    }
}

fn push_named(out: &mut Vec<u8>, words: &str, name: &Text) -> Result<(), AllocError>
    ensures { OnOk result (out.new.items ≡ out.old.items ++ named_form words.now name.now) }
{
    push_text(out, words)?;
    push_quoted(out, name.as_str())
}
