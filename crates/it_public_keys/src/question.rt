//! What signatures of one message by one key are asked.
ghost use Rattle.std.specs.Prelude.{◌≡◌, ◌↔◌, IsTrue};
ghost use Rattle.it_public_keys.specs.Form.{HasForm};
ghost use Rattle.it_public_keys.specs.Validity.{is_signature_with};

use crate::named_key::NamedKey;
use std::alloc::{AllocError, Global};
use std::rc::Rc;

/// A key and a message, as far as a check by the key looks at it.
#[derive(Drop)]
pub(crate) struct Question {
    /// The key.
    pub(crate) key: Rc<NamedKey>,
    /// The message's SHA-256, if the key's kind signs that, otherwise zeros.
    pub(crate) digest: [u8; 32],
    /// The message, if the key's kind signs that or another digest, otherwise nothing.
    pub(crate) message: Rc<Vec<u8>>,
    /// The number of that message among those that are remembered, if it is one of them.
    pub(crate) number: Option<usize>,
}

impl Question {
    /// Whether `sig` has the form of a signature by the key, without which it is none.
    pub(crate) fn has_form(&self, sig: &[u8]) -> bool
        ensures { IsTrue result ↔ HasForm self.now.key.value sig.now }
    {
        self.key.has_form(sig)
    }

    /// Whether `sig` is the key's signature of the message.
    pub(crate) fn check(&self, sig: &[u8]) -> bool
        ensures { result ≡ is_signature_with self.now.key.value self.now.digest
            self.now.message.value.items sig.now }
    {
        let message = self.message.as_slice();
        self.key.is_signature_with(&self.digest, &[message], sig)
    }

    /// Where the answer on a signature is remembered: bytes that differ for different questions, as
    /// far as keys differ in the first bytes of their names. None where the message is not one of
    /// those that are remembered.
    pub(crate) fn place_of(
        &self,
        alloc: Global,
        sig: &[u8],
    ) -> Result<Option<Vec<u8>>, AllocError> {
        let Some(number) = self.number else {
            return Ok(None);
        };
        let mut place = Vec::from_slice(alloc, &self.digest)?;
        place.extend_from_slice(&number.to_be_bytes())?;
        place.extend_from_slice(self.key.front_of_name())?;
        place.extend_from_slice(sig)?;
        Ok(Some(place))
    }
}
