//! Public keys.
ghost use Rattle.std.specs.Prelude.{◌≡◌, ◌++◌, ◌↔◌, ℕ, List, IsTrue, length, MatchOption};
ghost use Rattle.it_numbers.specs.Bytes.{big_bytes};
ghost use Rattle.it_p384_point.specs.Points.{affine};
ghost use Rattle.it_p384.specs.Key.{Key, IsKey, info_of, info_prefix};

use it_p384_field::FieldElement;
use it_p384_point::{Point, is_on_curve};
use std::marker::Model;

// What comes before the two coordinates in a SubjectPublicKeyInfo: the algorithm, the curve, and 4
// for an uncompressed point.
const INFO_PREFIX: [u8; 24] = [
    48, 118, 48, 16, 6, 7, 42, 134, 72, 206, 61, 2, 1, 6, 5, 43, 129, 4, 0, 34, 3, 98, 0, 4,
];

/// A public key: a point of the curve other than infinity. Its value is the two coordinates, so two
/// keys with the same coordinates are the same key.
#[derive(Drop)]
pub struct PublicKey {
    x: FieldElement,
    y: FieldElement,
}

impl Model for PublicKey {
    ghost use Rattle.it_p384.specs.Key.{Key, IsKey};

    ghost Value = { Key };

    ghost view = { λ key. record { x = key.x; y = key.y } };

    ghost invariant = { λ key. IsKey (record { x = key.x; y = key.y }) };
}

impl PublicKey {
    /// The key that the bytes encode as a SubjectPublicKeyInfo (RFC 5480, section 2) with the named
    /// curve secp384r1 and an uncompressed point, in DER. `None` where they encode no such key:
    /// with a point that is compressed or not on the curve, with a coordinate that is not below the
    /// prime, with another algorithm or curve, or with anything after.
    pub fn from_info(info: &[u8]) -> Option<PublicKey>
        ensures { MatchOption result
            ((key : Key) → IsKey key → info.now ≡ info_of key → ⊥)
            (λ key. IsKey key × (info.now ≡ info_of key)) }
    {
        let Some(coordinates) = coordinates_in(info) else {
            return None;
        };
        key_at(&coordinates[..48], &coordinates[48..])
    }

    /// A law: each key is a point of the curve. It does nothing.
    pub fn lies_on_curve(&self)
        ensures { IsKey self.now }
    {
        let _ = &self.x;
    }

    /// Whether this is the same key as the other.
    pub fn is_same(&self, other: &PublicKey) -> bool
        ensures { IsTrue result ↔ (self.now ≡ other.now) }
    {
        self.x.is_same(&other.x) && self.y.is_same(&other.y)
    }

    /// The key's point.
    pub(crate) fn point(&self) -> Point
        ensures { result ≡ affine self.now.x self.now.y }
    {
        Point::affine(self.x.copied(), self.y.copied())
    }
}

// The 96 bytes of the coordinates in a SubjectPublicKeyInfo.
fn coordinates_in(info: &[u8]) -> Option<&[u8]>
    ensures { MatchOption result
        ((bytes : List ℕ) → length bytes ≡ 96 → info.now ≡ info_prefix ++ bytes → ⊥)
        (λ bytes. (length bytes.now ≡ 96) × (info.now ≡ info_prefix ++ bytes.now)) }
{
    if info.len() != 120 {
        return None;
    }
    if &info[..24] != INFO_PREFIX.as_slice() {
        return None;
    }
    Some(&info[24..])
}

// The key with these coordinates, each in 48 bytes, highest first.
fn key_at(x_bytes: &[u8], y_bytes: &[u8]) -> Option<PublicKey>
    requires x_length { length x_bytes.now ≡ 48 }
    requires y_length { length y_bytes.now ≡ 48 }
    ensures { MatchOption result
        ((key : Key) → IsKey key → x_bytes.now ≡ big_bytes 48 key.x → y_bytes.now ≡ big_bytes 48
        key.y → ⊥)
        (λ key. IsKey key × (x_bytes.now ≡ big_bytes 48 key.x)
        × (y_bytes.now ≡ big_bytes 48 key.y)) }
{
    let Some(x) = FieldElement::from_bytes(x_bytes) else {
        return None;
    };
    let Some(y) = FieldElement::from_bytes(y_bytes) else {
        return None;
    };
    if !is_on_curve(&x, &y) {
        return None;
    }
    Some(PublicKey { x, y })
}
