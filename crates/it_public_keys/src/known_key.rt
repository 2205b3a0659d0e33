//! Keys that were decoded.
ghost use Rattle.std.specs.Prelude.{◌≡◌, IfSome, Some, string_bytes};
ghost use Rattle.it_public_keys.specs.DecodedKeys.{key_described, key_in};

use crate::named_key::NamedKey;
use it_dsse::key_object::KeyObject;
use std::alloc::{AllocError, Global};
use std::rc::Rc;

/// A key, with the texts that it was decoded from.
#[derive(Drop)]
pub(crate) struct KnownKey {
    scheme: String,
    public: String,
    key: Rc<NamedKey>,
    ghost right: { key_described (string_bytes scheme) (string_bytes public) ≡ Some key.value },
}

impl KnownKey {
    /// The key that an object describes.
    pub(crate) fn new(
        alloc: Global,
        object: &KeyObject,
        key: Rc<NamedKey>,
    ) -> Result<KnownKey, AllocError>
        requires { key_in object.now ≡ Some key.value }
    {
        Ok(KnownKey {
            scheme: String::from_str(alloc, object.scheme.as_str())?,
            public: String::from_str(alloc, object.public.as_str())?,
            key,
        })
    }

    /// The key, where it is the one that the object describes. Both texts are compared.
    pub(crate) fn of(&self, object: &KeyObject) -> Option<Rc<NamedKey>>
        ensures { IfSome result (λ key. key_in object.now ≡ Some key.value) }
    {
        let same = self.scheme.as_str() == object.scheme.as_str()
            && self.public.as_str() == object.public.as_str();
        if !same {
            return None;
        }
        self.key.clone().ok()
    }
}
