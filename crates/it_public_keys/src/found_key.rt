//! Public keys that were found.
ghost use Rattle.std.specs.Prelude.{◌≡◌};
ghost use Rattle.it_public_keys.specs.OwnKeys.{found_key};

use crate::named_key::NamedKey;
use std::rc::Rc;

/// A public key that was found.
#[derive(Drop)]
pub enum FoundKey {
    /// One that is not shared, since memory was refused. No signature is checked by it.
    Once(NamedKey),
    /// One that is held together with others who found it.
    Shared(Rc<NamedKey>),
}

impl FoundKey {
    /// The key.
    pub(crate) fn as_key(&self) -> &NamedKey
        ensures { result.now ≡ found_key self.now }
    {
        match self {
            FoundKey::Once(key) => key,
            FoundKey::Shared(key) => key.as_ref(),
        }
    }
}
