//! Texts and names in lines for people.
ghost use Rattle.std.specs.Prelude.{◌≡◌, ◌++◌, OnOk};
ghost use Rattle.it_member_notes.specs.PlaceWords.{quoted, told_form};

use it_report::name::push_cut_name;
use std::alloc::AllocError;

/// Appends a text.
pub(crate) fn push_text(out: &mut Vec<u8>, added: &str) -> Result<(), AllocError>
    ensures { OnOk result (out.new.items ≡ out.old.items ++ added.now) }
{
    out.extend_from_slice(added.as_bytes())
}

/// Appends a name as notes write it, in quotation marks.
#[tactic(auto, unfolding(crate::specs::PlaceWords::quoted))]
pub(crate) fn push_quoted(out: &mut Vec<u8>, name: &str) -> Result<(), AllocError>
    ensures { OnOk result (out.new.items ≡ out.old.items ++ quoted name.now) }
{
    push_text(out, "\"")?;
    push_cut_name(out, name.as_bytes())?;
    push_text(out, "\"")
}

/// Appends such a name between two texts.
#[tactic(auto, unfolding(crate::specs::PlaceWords::told_form))]
pub(crate) fn push_told(
    out: &mut Vec<u8>,
    before: &str,
    name: &str,
    after: &str,
) -> Result<(), AllocError>
    ensures { OnOk result
        (out.new.items ≡ out.old.items ++ told_form before.now name.now after.now) }
{
    push_text(out, before)?;
    push_quoted(out, name)?;
    push_text(out, after)
}
