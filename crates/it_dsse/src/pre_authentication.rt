//! The bytes that are signed.
ghost use Rattle.std.specs.Prelude.{◌≡◌, IfOk};
ghost use Rattle.it_message.specs.Message.{joined};
ghost use Rattle.it_dsse.specs.Pae.{pae_of};

use crate::decimal::{MOST_DIGITS, decimal_in};
use it_message::join;
use std::alloc::{AllocError, Global};

/// Room for the digits of the lengths of a type and a body.
#[derive(Drop)]
pub(crate) struct LengthDigits {
    kind: [u8; MOST_DIGITS],
    body: [u8; MOST_DIGITS],
}

impl LengthDigits {
    /// Room in which no digits are written yet.
    pub(crate) fn new() -> LengthDigits {
        LengthDigits {
            kind: [0; MOST_DIGITS],
            body: [0; MOST_DIGITS],
        }
    }
}

/// The parts of the pre-authentication encoding of a body of a type, one after another (DSSE v1.0,
/// "Protocol", PAE): `DSSEv1`, the length of the type in bytes, the type, the length of the body in
/// bytes and the body, separated by single spaces. Takes no memory.
#[tactic(auto, unfolding(crate::specs::Pae::pae_of))]
pub(crate) fn parts_of<'a>(
    kind: &'a str,
    body: &'a [u8],
    digits: &'a mut LengthDigits,
) -> [&'a [u8]; 8]
    ensures { joined result ≡ pae_of kind.now body.now }
{
    let kind = kind.as_bytes();
    let kind_len = decimal_in(kind.len(), &mut digits.kind);
    let body_len = decimal_in(body.len(), &mut digits.body);
    [b"DSSEv1 ", kind_len, b" ", kind, b" ", body_len, b" ", body]
}

/// The pre-authentication encoding of a body of a type (DSSE v1.0, "Protocol", PAE): `DSSEv1`, the
/// length of the type in bytes, the type, the length of the body in bytes and the body,
/// separated by single spaces.
///
/// # Errors
///
/// `AllocError` where memory was refused.
pub fn pae(alloc: Global, kind: &str, body: &[u8]) -> Result<Vec<u8>, AllocError>
    ensures { IfOk result (λ bytes. bytes.items ≡ pae_of kind.now body.now) }
{
    let mut digits = LengthDigits::new();
    let parts = parts_of(kind, body, &mut digits);
    join(alloc, &parts)
}
