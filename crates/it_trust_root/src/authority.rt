//! Authorities.
ghost use Rattle.std.specs.Prelude.{◌≡◌, IfOk, codes};
ghost use Rattle.it_borrowed.specs.Tree.{as_data};
ghost use Rattle.it_base.specs.Finds.{Finds};
ghost use Rattle.it_base.specs.Parts.{IsPart};
ghost use Rattle.it_base.specs.Sequence.{IsList};
ghost use Rattle.it_trust_root.specs.Authority.{IsAuthority, IsRawBytes};

use crate::window::window_of;
use it_base::sequence::Sequence;
use it_borrowed::base64_text::base64_part;
use it_borrowed::document::member;
use it_borrowed::parts::{FromBorrowed, part};
use it_log::Window;
use json::Value;
use std::alloc::{AllocError, Global};
use std::marker::Model;

/// The most certificates that an authority may have.
const MOST_CERTIFICATES: usize = 8;

/// The bytes of a certificate, not looked at yet. To a contract it is these bytes.
#[derive(Drop)]
pub struct RawBytes {
    bytes: Sequence<u8>,
}

impl Model for RawBytes {
    ghost use Rattle.std.specs.Prelude.{ℕ, List};

    ghost Value = { List ℕ };

    ghost view = { λ raw. raw.bytes };
}

impl RawBytes {
    /// The bytes. Takes no memory.
    pub fn as_slice(&self) -> &[u8]
        ensures { result.now ≡ self.now }
    {
        self.bytes.as_slice()
    }
}

/// An authority that is trusted to issue certificates.
#[derive(Drop)]
pub struct Authority {
    /// Its certificates, not looked at yet: the one that issues first, the one that is trusted as
    /// it is last.
    pub certificates: Sequence<RawBytes>,
    /// When the authority is trusted.
    pub window: Window,
}

impl FromBorrowed for RawBytes {
    ghost is_of = { IsRawBytes };

    fn from_borrowed(alloc: Global, value: &Value<'_>) -> Result<Option<RawBytes>, AllocError> {
        match base64_part(alloc, value, "rawBytes")? {
            Some(bytes) => Ok(Some(RawBytes { bytes })),
            None => Ok(None),
        }
    }
}

impl FromBorrowed for Authority {
    ghost is_of = { IsAuthority };

    fn from_borrowed(alloc: Global, value: &Value<'_>) -> Result<Option<Authority>, AllocError> {
        let Some(certificates) = certificates_of(alloc, value)? else {
            return Ok(None);
        };
        let count = certificates.as_slice().len();
        if count == 0 || count > MOST_CERTIFICATES {
            return Ok(None);
        }
        let Some(window) = window_of(value) else {
            return Ok(None);
        };
        Ok(Some(Authority {
            certificates,
            window,
        }))
    }
}

fn certificates_of(
    alloc: Global,
    value: &Value<'_>,
) -> Result<Option<Sequence<RawBytes>>, AllocError>
    ensures { IfOk result (Finds (IsPart (IsPart (IsList IsRawBytes) (codes "certificates"))
        (codes "certChain") (as_data value.now))) }
{
    match member(value, "certChain") {
        None => Ok(None),
        Some(found) => part::<Sequence<RawBytes>>(alloc, found, "certificates"),
    }
}
