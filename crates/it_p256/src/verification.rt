//! The verification of the two numbers of a signature.
ghost use Rattle.std.specs.Prelude.{◌≡◌, ◌<◌, ◌↔◌, IsTrue};
ghost use Rattle.it_p256_limbs.specs.Numbers.{value_of};
ghost use Rattle.it_p256_order.specs.Order.{group_order};
ghost use Rattle.it_p256.specs.Signature.{IsInRange, Agrees, IsSigned, combination_of};

use crate::key::PublicKey;
use crate::signature_value::SignatureValue;
use it_p256_limbs::{Limbs, is_below, is_same};
use it_p256_order::{GROUP_ORDER, Scalar};
use it_p256_point::Point;

/// Whether the two numbers are the key's signature of a message with the digest `e`.
pub(crate) fn is_signed(key: &PublicKey, e: Limbs, signature: &SignatureValue) -> bool
    ensures { IsTrue result ↔ IsSigned key.now (value_of e) (value_of signature.now.r)
        (value_of signature.now.s) }
{
    if !is_in_range(signature.r) {
        return false;
    }
    if !is_in_range(signature.s) {
        return false;
    }
    agrees(key, e, signature)
}

// Whether a number may be one of the two numbers of a signature.
fn is_in_range(n: Limbs) -> bool
    ensures { IsTrue result ↔ IsInRange (value_of n) }
{
    if is_same(n, Limbs(0, 0, 0, 0)) {
        return false;
    }
    is_below(n, GROUP_ORDER)
}

// Whether the point that the numbers lead to agrees with the first of them.
fn agrees(key: &PublicKey, e: Limbs, signature: &SignatureValue) -> bool
    requires r_below { value_of signature.now.r < group_order }
    requires s_below { value_of signature.now.s < group_order }
    ensures { IsTrue result ↔ Agrees key.now (value_of e) (value_of signature.now.r)
        (value_of signature.now.s) }
{
    let point = combination(key, e, signature);
    if point.is_infinity() {
        return false;
    }
    let first = Scalar::from_limbs(point.first_coordinate().to_limbs());
    is_same(first.to_limbs(), signature.r)
}

// The point that the numbers lead to.
fn combination(key: &PublicKey, e: Limbs, signature: &SignatureValue) -> Point
    requires r_below { value_of signature.now.r < group_order }
    requires s_below { value_of signature.now.s < group_order }
    ensures { result ≡ combination_of key.now (value_of e) (value_of signature.now.r)
        (value_of signature.now.s) }
{
    let inverse = Scalar::from_limbs(signature.s).inverse();
    let first = Scalar::from_limbs(e).multiply(&inverse).to_limbs();
    let second = Scalar::from_limbs(signature.r)
        .multiply(&inverse)
        .to_limbs();
    Point::base().sum_of_multiples(first, &key.point(), second)
}
