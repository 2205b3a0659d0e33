//! Public keys in PEM.
ghost use Rattle.std.specs.Prelude.{◌≡◌};
ghost use Rattle.base64.specs.Engines.{standard};
ghost use Rattle.base64.specs.GeneralPurpose.{decoded_of};
ghost use Rattle.it_pem.specs.PublicKeyText.{info_in};

use crate::body::body_in;
use crate::joined::Joined;
use base64::engine::general_purpose::STANDARD;
use std::marker::Model;

/// The bytes of a SubjectPublicKeyInfo, at most 1,536, from a PEM text and not yet looked at. To a
/// contract it is these bytes.
#[derive(Drop)]
pub struct PublicKeyInfo {
    bytes: [u8; 1536],
    count: usize,
}

impl Model for PublicKeyInfo {
    ghost use Rattle.std.specs.Prelude.{ℕ, List, ◌≤◌, take};

    ghost Value = { List ℕ };

    ghost view = { λ info. take info.count info.bytes };

    ghost invariant = { λ info. info.count ≤ 1536 };
}

impl PublicKeyInfo {
    /// The bytes.
    pub fn as_bytes(&self) -> &[u8]
        ensures { result.now ≡ self.now }
    {
        &self.bytes[..self.count]
    }
}

/// The bytes encoded between the marks `-----BEGIN PUBLIC KEY-----` and `-----END PUBLIC KEY-----`
/// (RFC 7468, section 13), which are the first and last lines of a text: in lines of 1 to 76
/// characters that, joined, are base64 with padding (RFC 4648, section 4). Each line ends with a
/// line feed, or with a carriage return and a line feed, which the last one may lack. `None` where
/// the text has another form, or more than 2,048 characters between the marks. Takes no memory.
pub fn public_key_info(text: &str) -> Option<PublicKeyInfo>
    ensures { result ≡ info_in text.now }
{
    match body_in(text) {
        Some(body) => decoded(&body),
        None => None,
    }
}

/// The bytes of a base64 text.
#[tactic(auto, unfolding(base64::specs::GeneralPurpose::decoded_of))]
fn decoded(body: &Joined) -> Option<PublicKeyInfo>
    ensures { result ≡ decoded_of standard body.now }
{
    let mut bytes = [0; 1536];
    match STANDARD.decode_slice_unchecked(body.as_bytes(), &mut bytes) {
        Ok(count) => Some(PublicKeyInfo { bytes, count }),
        Err(_) => None,
    }
}
