//! The identity that a key object describes.
ghost use Rattle.std.specs.Prelude.{IfOk, codes};
ghost use Rattle.serde_json.specs.View.{view};
ghost use Rattle.it_base.specs.Finds.{Finds};
ghost use Rattle.it_base.specs.Parts.{IsPart};
ghost use Rattle.it_base.specs.Text.{IsText};
ghost use Rattle.it_identity.specs.KeyObject.{DescribesIdentity};

use crate::identity::{Identity, is_short};
use it_base::document::member;
use it_base::parts::FromDocument;
use it_base::sequence::Sequence;
use it_base::text::has_text;
use serde_json::Value;
use std::alloc::{AllocError, Global};

impl FromDocument for Identity {
    ghost is_of = { DescribesIdentity };

    /// The identity that a key object describes: by its scheme and the members of its `keyval`
    /// alone, whatever its other members are.
    fn from_document(alloc: Global, value: &Value) -> Result<Option<Identity>, AllocError> {
        if !has_text(value, "scheme", "Fulcio") {
            return Ok(None);
        }
        let Some(name) = text_in_keyval(alloc, value, "identity")? else {
            return Ok(None);
        };
        let Some(issuer) = text_in_keyval(alloc, value, "issuer")? else {
            return Ok(None);
        };
        if !is_short(name.as_slice()) || !is_short(issuer.as_slice()) {
            return Ok(None);
        }
        Ok(Some(Identity { name, issuer }))
    }
}

fn text_in_keyval(
    alloc: Global,
    value: &Value,
    name: &str,
) -> Result<Option<Sequence<u8>>, AllocError>
    ensures { IfOk result
        (Finds (IsPart (IsPart IsText name.now) (codes "keyval") (view value.now))) }
{
    match member(value, "keyval") {
        None => Ok(None),
        Some(keyval) => text_at(alloc, keyval, name),
    }
}

fn text_at(alloc: Global, value: &Value, name: &str) -> Result<Option<Sequence<u8>>, AllocError>
    ensures { IfOk result (Finds (IsPart IsText name.now (view value.now))) }
{
    match member(value, name) {
        None => Ok(None),
        Some(found) => text_of(alloc, found),
    }
}

/// The bytes of a text.
fn text_of(alloc: Global, value: &Value) -> Result<Option<Sequence<u8>>, AllocError>
    ensures { IfOk result (Finds (IsText (view value.now))) }
{
    match value.as_str() {
        None => Ok(None),
        Some(text) => Ok(Some(Sequence::from(Vec::from_slice(alloc, text.as_bytes())?))),
    }
}
