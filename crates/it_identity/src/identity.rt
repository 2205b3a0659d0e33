//! Identities.
ghost use Rattle.std.specs.Prelude.{◌≡◌, ◌↔◌, ◌<◌, ℕ, IfOk, IsTrue, slice_index};
ghost use Rattle.it_base.specs.Finds.{Finds};
ghost use Rattle.it_identity.specs.Identity.{IsIdentity, IsOfBytes, IsShort};

use it_base::sequence::Sequence;
use std::alloc::{AllocError, Global};

/// The most bytes of a name or an issuer.
const MOST_BYTES: usize = 512;

/// Who signed, and who says so.
#[derive(Drop)]
pub struct Identity {
    /// Who signed: a URI, an address of mail or another name.
    pub name: Sequence<u8>,
    /// Who says so, such as the URL of a service that signs people or workflows in.
    pub issuer: Sequence<u8>,
}

impl Identity {
    /// The identity of a name and an issuer; `None` where one of them is empty or has more than
    /// 512 bytes.
    ///
    /// # Errors
    ///
    /// `AllocError` where memory was refused.
    pub fn of(alloc: Global, name: &[u8], issuer: &[u8]) -> Result<Option<Identity>, AllocError>
        ensures { IfOk result (Finds (λ identity.
            (identity.name ≡ name.now) × (identity.issuer ≡ issuer.now) × IsIdentity identity)) }
    {
        if !is_short(name) || !is_short(issuer) {
            return Ok(None);
        }
        Ok(Some(Identity {
            name: Sequence::from(Vec::from_slice(alloc, name)?),
            issuer: Sequence::from(Vec::from_slice(alloc, issuer)?),
        }))
    }

    /// An identity is made of bytes.
    pub fn is_of_bytes(&self)
        ensures { IsOfBytes self.now }
    {
        are_bytes(self.name.as_slice());
        are_bytes(self.issuer.as_slice());
    }
}

/// Whether a text has 1 to 512 bytes.
pub fn is_short(text: &[u8]) -> bool
    ensures { IsTrue result ↔ IsShort text.now }
{
    !text.is_empty() && text.len() <= MOST_BYTES
}

/// The bytes of a slice are below 256.
fn are_bytes(bytes: &[u8])
    ensures { (k : ℕ) → slice_index bytes.now k < 256 }
{}
