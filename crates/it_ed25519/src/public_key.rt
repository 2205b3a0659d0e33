//! Public keys.
ghost use Rattle.std.specs.Prelude.{◌≡◌, ℕ, ◌↔◌, IsSome, IfSome, Some, List};
ghost use Rattle.it_ed_point.specs.Curve.{multiple_of};
ghost use Rattle.it_ed_point.specs.declared.point.Point.{Point};
ghost use Rattle.it_ed_point.specs.Encoding.{decoded, encoding_of};
ghost use Rattle.it_ed25519.specs.PublicKey.{IsPublicKey, HoldsKey, is_small_order};
ghost use Rattle.it_ed25519.specs.Signature.{combination_of};

use it_ed_point::multiplier::Multiplier;
use it_ed_point::point::Point;
use it_ed_scalar::scalar::Scalar;
use std::alloc::Global;
use std::marker::Model;

/// A public key, decoded once. To a contract it is its 32 bytes, so keys with equal bytes are
/// equal.
#[derive(Drop)]
pub struct PublicKey {
    bytes: [u8; 32],
    /// The point with the opposite x, -A.
    opposite: Point,
    /// The same with its doubles, where the key is made for many signatures.
    multiplier: Option<Multiplier>,
}

impl Model for PublicKey {
    ghost Value = { List ℕ };

    ghost view = { λ k. k.bytes };

    ghost invariant = { λ k. HoldsKey k.bytes k.opposite
        × IfSome k.multiplier (λ m. m ≡ k.opposite) };
}

fn is_small_order(point: &Point) -> bool
    ensures { result ≡ is_small_order point.now }
{
    point.double().double().double().is_neutral()
}

impl PublicKey {
    /// The key of 32 bytes, or `None` where they are no key: where RFC 8032, section 5.1.3, decodes
    /// no point, or one of small order, under which anyone could sign.
    pub fn from_bytes(bytes: &[u8; 32]) -> Option<PublicKey>
        ensures some { IsSome result ↔ IsPublicKey bytes.now }
        ensures key { IfSome result (λ key. key ≡ bytes.now) }
    {
        match Point::decode(bytes) {
            None => None,
            Some(point) => {
                if is_small_order(&point) {
                    return None;
                }
                Some(PublicKey {
                    bytes: *bytes,
                    opposite: point.negate(),
                    multiplier: None,
                })
            }
        }
    }

    /// The same key, made for many signatures: what all of them need is computed once, which takes
    /// as long as it saves for each, and 40 kilobytes. Where memory is refused, nothing is saved.
    pub fn for_many(self, alloc: Global) -> PublicKey
        ensures { result ≡ self }
    {
        let PublicKey {
            bytes,
            opposite,
            ..
        } = self;
        let multiplier = Multiplier::of(alloc, &opposite).ok();
        PublicKey {
            bytes,
            opposite,
            multiplier,
        }
    }

    /// The 32 bytes of the key. They are always those of a public key.
    pub fn as_bytes(&self) -> &[u8; 32]
        ensures bytes { result.now ≡ self.now }
        ensures key { IsPublicKey self.now }
    {
        &self.bytes
    }

    /// The bytes of [S] B + [k] (-A), where A is the key's point: what a signature by the key with
    /// this S begins with.
    pub(crate) fn first_half(&self, s: &Scalar, k: &Scalar) -> [u8; 32]
        ensures { (a : Point) → decoded self.now ≡ Some a → result ≡ encoding_of
            (combination_of a s.now k.now) }
    {
        let multiple = multiple(&self.opposite, &self.multiplier, k);
        Point::multiple_of_base(s).add(&multiple).encode()
    }
}

/// A number of times a point, by the doubles of the point where they are at hand.
fn multiple(point: &Point, multiplier: &Option<Multiplier>, k: &Scalar) -> Point
    requires { IfSome multiplier.now (λ m. m ≡ point.now) }
    ensures { result ≡ multiple_of k.now point.now }
{
    match multiplier {
        Some(multiplier) => multiplier.multiply(k),
        None => point.multiply(k),
    }
}
