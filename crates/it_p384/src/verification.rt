//! The verification of the two numbers of a signature.
ghost use Rattle.std.specs.Prelude.{◌≡◌, ◌<◌, ◌↔◌, IsTrue};
ghost use Rattle.it_numbers.specs.Bytes.{big};
ghost use Rattle.it_limb_slices.specs.Limbs.{number_of};
ghost use Rattle.it_p384_order.specs.Order.{group_order};
ghost use Rattle.it_p384.specs.Signature.{Agrees, IsSigned, combination_of};

use crate::key::PublicKey;
use crate::number::number_in_range;
use it_limb_slices::{is_equal, read_number};
use it_p384_order::Scalar;
use it_p384_point::Point;

/// Whether two numbers, in bytes, highest first, are the key's signature of a message with the
/// digest.
pub(crate) fn is_signed(key: &PublicKey, digest: &[u8; 48], r: &[u8], s: &[u8]) -> bool
    ensures { IsTrue result ↔ IsSigned key.now (big digest.now) (big r.now) (big s.now) }
{
    let Some(r) = number_in_range(r) else {
        return false;
    };
    let Some(s) = number_in_range(s) else {
        return false;
    };
    let mut e = [0; 6];
    read_number(&mut e, digest);
    agrees(key, &e, &r, &s)
}

// Whether the point that the numbers lead to agrees with the first of them.
fn agrees(key: &PublicKey, e: &[u64; 6], r: &[u64; 6], s: &[u64; 6]) -> bool
    requires r_below { number_of r.now < group_order }
    requires s_below { number_of s.now < group_order }
    ensures { IsTrue result ↔ Agrees key.now (number_of e.now) (number_of r.now) (number_of s.now) }
{
    let point = combination(key, e, r, s);
    if point.is_infinity() {
        return false;
    }
    let first = Scalar::from_limbs(&point.first_coordinate().to_limbs());
    is_equal(&first.to_limbs(), r)
}

// The point that the numbers lead to.
fn combination(key: &PublicKey, e: &[u64; 6], r: &[u64; 6], s: &[u64; 6]) -> Point
    requires r_below { number_of r.now < group_order }
    requires s_below { number_of s.now < group_order }
    ensures { result ≡ combination_of key.now (number_of e.now) (number_of r.now)
        (number_of s.now) }
{
    let inverse = Scalar::from_limbs(s).inverse();
    let first = Scalar::from_limbs(e).multiply(&inverse).to_limbs();
    let second = Scalar::from_limbs(r).multiply(&inverse).to_limbs();
    Point::base().sum_of_multiples(&first, &key.point(), &second)
}
