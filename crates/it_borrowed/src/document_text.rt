//! The bytes of a document and its tree, read once for all that look at it.
ghost use Rattle.std.specs.Prelude.{◌≡◌, IfOk, IfSome};
ghost use Rattle.json.specs.Value.{value_view};
ghost use Rattle.it_base.specs.Document.{IsDocument, OfDocument};
ghost use Rattle.it_base.specs.Finds.{Finds, FindsAs};
ghost use Rattle.it_borrowed.specs.Json.{IsJson};
ghost use Rattle.it_borrowed.specs.Tree.{as_data};

use crate::document::read_document;
use crate::parts::FromBorrowed;
use json::{Scratch, Value};
use std::alloc::{AllocError, Global};
use std::marker::Model;

/// The bytes of a text, and the JSON document that they are, if they are one: all that looks at the
/// document looks at one reading. To a contract it is the bytes.
#[derive(Drop)]
pub struct DocumentText<'b> {
    /// The bytes.
    bytes: &'b [u8],
    /// The document.
    document: Option<Value<'b>>,
}

impl<'b> Model for DocumentText<'b> {
    ghost use Rattle.std.specs.Prelude.{List, ℕ};
    ghost use Rattle.it_borrowed.specs.inside.DocumentText.{IsReadFrom};

    ghost Value = { List ℕ };

    ghost view = { λ text. text.bytes.now };

    ghost invariant = { λ text. IsReadFrom text.bytes.now text.document };
}

impl<'b> DocumentText<'b> {
    /// Reads the document that the bytes are, if they are one. `scratch` keeps its texts that are
    /// written with escapes.
    ///
    /// # Errors
    ///
    /// `AllocError` where memory was refused.
    pub fn read(
        alloc: Global,
        bytes: &'b [u8],
        scratch: &'b mut Scratch,
    ) -> Result<DocumentText<'b>, AllocError>
        ensures { IfOk result (λ text. text ≡ bytes.now) }
    {
        let document = read_document(alloc, bytes, scratch)?;
        Ok(DocumentText { bytes, document })
    }

    /// The bytes. Takes no memory.
    pub fn bytes(&self) -> &'b [u8]
        ensures { result.now ≡ self.now }
    {
        self.bytes
    }

    /// The document that the bytes are, or `None` where they are none. Takes no memory.
    pub fn document(&self) -> Option<&Value<'b>>
        ensures document { FindsAs (λ v. as_data v.now) (IsDocument self.now) result }
        ensures tree { IfSome result (λ v. IsJson self.now (value_view v.now)) }
    {
        self.document.as_ref()
    }

    /// The document, read as a value, or `None` where the bytes are no document or the document is
    /// not such a value.
    ///
    /// # Errors
    ///
    /// `AllocError` where memory was refused.
    pub fn value<T: FromBorrowed>(&self, alloc: Global) -> Result<Option<T>, AllocError>
        ensures { IfOk result (Finds (OfDocument T.is_of self.now)) }
    {
        match self.document() {
            None => Ok(None),
            Some(document) => T::from_borrowed(alloc, document),
        }
    }
}
