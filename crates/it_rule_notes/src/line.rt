//! Pieces of lines for people.
ghost use Rattle.std.specs.Prelude.{◌≡◌, ◌++◌, OnOk};
ghost use Rattle.it_rule_notes.specs.Line.{key_form, told_form};

use it_base::text::Text;
use it_report::name::push_cut_name;
use std::alloc::AllocError;

/// Appends a text.
pub(crate) fn push_text(text: &mut Vec<u8>, added: &str) -> Result<(), AllocError>
    ensures { OnOk result (text.new.items ≡ text.old.items ++ added.now) }
{
    text.extend_from_slice(added.as_bytes())
}

/// Appends a name between two texts.
#[tactic(auto, unfolding(crate::specs::Line::told_form))]
pub(crate) fn push_told(
    text: &mut Vec<u8>,
    before: &str,
    name: &Text,
    after: &str,
) -> Result<(), AllocError>
    ensures { OnOk result
        (text.new.items ≡ text.old.items ++ told_form before.now name.now after.now) }
{
    push_text(text, before)?;
    push_cut_name(text, name.as_str().as_bytes())?;
    push_text(text, after)
}

/// Appends a key id of a step of the layout.
#[tactic(auto, unfolding(crate::specs::Line::key_form))]
pub(crate) fn push_key(text: &mut Vec<u8>, id: &Text, step: &Text) -> Result<(), AllocError>
    ensures { OnOk result (text.new.items ≡ text.old.items ++ key_form id.now step.now) }
{
    push_told(text, "layout: for key ", id, "")?;
    push_told(text, " of step ", step, "")
}
