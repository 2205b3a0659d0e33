//! A vector: a key, a message and a signature, and what other implementations say of them.
ghost use Rattle.std.specs.Prelude.{◌↔◌, IfOk, IsTrue};
ghost use Rattle.it_vectors.specs.Agreement.{Holds};

use crate::kind::Kind;
use it_base::sequence::Sequence;
use it_base::text::Text;
use std::alloc::{AllocError, Global};

/// A key and what is tried with it, and whether that should hold.
#[derive(Drop)]
pub(crate) struct Vector {
    /// The name, by which readers tell vectors apart.
    pub(crate) name: Text,
    /// The kind of the key and the signature.
    pub(crate) kind: Kind,
    /// The bytes of the key.
    pub(crate) key: Sequence<u8>,
    /// What is tried.
    pub(crate) tried: Tried,
    /// Whether it should hold.
    pub(crate) wanted: bool,
}

/// What is tried.
#[derive(Drop)]
pub(crate) enum Tried {
    /// Whether the bytes are a key.
    KeyAlone,
    /// Whether these bytes are the key's signature of a message.
    Signature(Signed),
}

/// A message with the bytes that could be its signature.
#[derive(Drop)]
pub(crate) struct Signed {
    /// The bytes of the message.
    pub(crate) message: Sequence<u8>,
    /// The bytes of the signature.
    pub(crate) signature: Sequence<u8>,
}

impl Vector {
    ghost use Rattle.it_vectors.specs.Agreement.{Agrees};

    /// Whether what is tried holds exactly where that is wanted.
    pub(crate) fn agrees(&self, alloc: Global) -> Result<bool, AllocError>
        ensures { IfOk result (λ agrees. IsTrue agrees ↔ Agrees self.now) }
    {
        let held = holds(alloc, self.kind, self.key.as_slice(), &self.tried)?;
        Ok(held == self.wanted)
    }
}

/// Whether what is tried holds, by that kind's library.
fn holds(alloc: Global, kind: Kind, key: &[u8], tried: &Tried) -> Result<bool, AllocError>
    ensures { IfOk result (λ held. IsTrue held ↔ Holds kind key.now tried.now) }
{
    match tried {
        Tried::KeyAlone => Ok(kind.takes_key(key)),
        Tried::Signature(signed) => {
            let (message, signature) = (signed.message.as_slice(), signed.signature.as_slice());
            kind.takes_signature(alloc, key, message, signature)
        }
    }
}
