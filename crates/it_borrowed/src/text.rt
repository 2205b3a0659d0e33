//! Texts of a document.
ghost use Rattle.std.specs.Prelude.{◌≡◌, ◌↔◌, IfOk, IsTrue, option_map};
ghost use Rattle.serde_json.specs.Find.{as_str};
ghost use Rattle.it_base.specs.Finds.{Finds};
ghost use Rattle.it_base.specs.Parts.{IsPart};
ghost use Rattle.it_base.specs.Text.{IsText};
ghost use Rattle.it_borrowed.specs.Tree.{as_data};

use crate::document::member;
use crate::parts::FromBorrowed;
use it_base::text::Text;
use json::Value;
use std::alloc::{AllocError, Global};

impl FromBorrowed for Text {
    ghost is_of = { IsText };

    /// A copy of the text, where the part is one.
    fn from_borrowed(alloc: Global, value: &Value<'_>) -> Result<Option<Text>, AllocError> {
        match text_of(value) {
            None => Ok(None),
            Some(text) => Ok(Some(Text::copy(alloc, text)?)),
        }
    }
}

/// The text that a value is, if it is one. Takes no memory.
pub fn text_of<'t>(value: &Value<'t>) -> Option<&'t str>
    ensures { option_map (λ s. s.now) result ≡ as_str (as_data value.now) }
{
    value.as_str()
}

/// Whether the member of this name is this text. Takes no memory.
pub fn has_text(value: &Value<'_>, name: &str, text: &str) -> bool
    ensures { IsTrue result ↔ IsPart IsText name.now (as_data value.now) text.now }
{
    match member(value, name) {
        None => false,
        Some(found) => is_text(found, text),
    }
}

fn is_text(value: &Value<'_>, text: &str) -> bool
    ensures { IsTrue result ↔ IsText (as_data value.now) text.now }
{
    match text_of(value) {
        None => false,
        Some(found) => found == text,
    }
}
