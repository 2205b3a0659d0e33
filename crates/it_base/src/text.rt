//! A text, which contracts see as its bytes in UTF-8.
ghost use Rattle.std.specs.Prelude.{◌≡◌, ◌↔◌, List, ℕ, IfOk, IsTrue, string_bytes};
ghost use Rattle.serde_json.specs.View.{view};
ghost use Rattle.it_base.specs.Finds.{Finds};
ghost use Rattle.it_base.specs.Parts.{IsPart};
ghost use Rattle.it_base.specs.Text.{IsText};

use crate::document::member;
use crate::parts::FromDocument;
use serde_json::Value;
use std::alloc::{AllocError, Global};
use std::marker::Model;

/// An owned text. A contract sees the list of its bytes in UTF-8, and nothing else.
#[derive(Drop)]
pub struct Text {
    text: String,
}

impl Model for Text {
    ghost Value = { List ℕ };

    ghost view = { λ t. string_bytes t.text };
}

impl From<String> for Text {
    ghost from_gives = { λ s t. t ≡ string_bytes s };

    /// The text of a string. Takes no memory.
    fn from(text: String) -> Text {
        Text { text }
    }
}

impl Text {
    /// A copy of a text, in memory from `alloc`.
    ///
    /// # Errors
    ///
    /// `AllocError` where memory was refused.
    pub fn copy(alloc: Global, text: &str) -> Result<Text, AllocError>
        ensures { IfOk result (λ copy. copy ≡ text.now) }
    {
        Ok(Text::from(String::from_str(alloc, text)?))
    }

    /// Lends the text. Takes no memory.
    pub fn as_str(&self) -> &str
        ensures { result.now ≡ self.now }
    {
        self.text.as_str()
    }
}

impl FromDocument for Text {
    ghost is_of = { IsText };

    /// A copy of the text, where the part is one.
    fn from_document(alloc: Global, value: &Value) -> Result<Option<Text>, AllocError> {
        match value.as_str() {
            None => Ok(None),
            Some(text) => Ok(Some(Text::copy(alloc, text)?)),
        }
    }
}

/// Whether the member of this name is this text. Takes no memory.
pub fn has_text(value: &Value, name: &str, text: &str) -> bool
    ensures { IsTrue result ↔ IsPart IsText name.now (view value.now) text.now }
{
    match member(value, name) {
        None => false,
        Some(found) => is_text(found, text),
    }
}

fn is_text(value: &Value, text: &str) -> bool
    ensures { IsTrue result ↔ IsText (view value.now) text.now }
{
    match value.as_str() {
        None => false,
        Some(found) => found == text,
    }
}
