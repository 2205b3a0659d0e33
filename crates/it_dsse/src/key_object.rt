//! What a document says about a key.
ghost use Rattle.std.specs.Prelude.{◌≡◌, IfOk, option_map};
ghost use Rattle.it_borrowed.specs.Tree.{as_data};
ghost use Rattle.it_base.specs.Finds.{Finds};
ghost use Rattle.it_dsse.specs.KeyObject.{IsKeyObject, text_at};

use it_base::text::Text;
use it_borrowed::document::{is_object, member};
use it_borrowed::parts::FromBorrowed;
use it_borrowed::text::text_of;
use json::Value;
use std::alloc::{AllocError, Global};

/// A key, as a layout or a policy describes it (in-toto 1.0 section 4.2). Which key it is, if any,
/// is up to a check.
#[derive(Drop)]
pub struct KeyObject {
    /// The kind of key, such as `ed25519`.
    pub keytype: Text,
    /// The scheme of the key's signatures, such as `hmac-sha256`.
    pub scheme: Text,
    /// The public part of the key, in the scheme's own form.
    pub public: Text,
    /// Who signs, where the key is that of an identity.
    pub identity: Text,
    /// Who says that it is they, where the key is that of an identity.
    pub issuer: Text,
}

impl FromBorrowed for KeyObject {
    ghost is_of = { IsKeyObject };

    /// The key object, where the part is a JSON object. A member that is not text reads as empty.
    fn from_borrowed(alloc: Global, value: &Value<'_>) -> Result<Option<KeyObject>, AllocError> {
        if !is_object(value) {
            return Ok(None);
        }
        let keyval = member(value, "keyval");
        Ok(Some(KeyObject {
            keytype: text_or_empty(alloc, Some(value), "keytype")?,
            scheme: text_or_empty(alloc, Some(value), "scheme")?,
            public: text_or_empty(alloc, keyval, "public")?,
            identity: text_or_empty(alloc, keyval, "identity")?,
            issuer: text_or_empty(alloc, keyval, "issuer")?,
        }))
    }
}

fn text_or_empty(alloc: Global, value: Option<&Value<'_>>, name: &str) -> Result<Text, AllocError>
    ensures { IfOk result
        (λ text. text ≡ text_at name.now (option_map (λ v. as_data v.now) value.entry)) }
{
    let text = value
        .and_then(|object| member(object, name))
        .and_then(text_of);
    Text::copy(alloc, text.unwrap_or(""))
}
