//! The point with a given y and sign of x (RFC 8032, section 5.1.3).
ghost use Rattle.std.specs.Prelude.{◌≡◌};
ghost use Rattle.it_ed_point.specs.Encoding.{signed, is_odd_zero, signed_point, point_at};

use crate::constants::{curve_constant, one, zero};
use crate::point::Point;
use crate::roots::root_of_ratio;
use it_ed_field::field_element::FieldElement;

fn is_odd_zero(x: &FieldElement, sign: u64) -> bool
    ensures { result ≡ is_odd_zero x.now sign }
{
    x.is_same(&zero()) && sign == 1
}

/// The number if its parity is `sign`, 0 or 1, and otherwise its opposite.
fn signed(x: FieldElement, sign: u64) -> FieldElement
    ensures { result ≡ signed x sign }
{
    if x.parity() == sign {
        x
    } else {
        zero().subtract(&x)
    }
}

/// The point with this x or its opposite, as `sign` says, unless x is 0 and `sign` is 1.
fn signed_point(x: FieldElement, y: FieldElement, sign: u64) -> Option<Point>
    ensures { result ≡ signed_point x y sign }
{
    if is_odd_zero(&x, sign) {
        return None;
    }
    let x = signed(x, sign);
    let t = x.multiply(&y);
    Some(Point { x, y, z: one(), t })
}

/// The point with this y and an x whose parity is `sign`, if there is one.
pub(crate) fn point_at(y: FieldElement, sign: u64) -> Option<Point>
    ensures { result ≡ point_at y sign }
{
    let square = y.multiply(&y);
    let u = square.subtract(&one());
    let v = curve_constant().multiply(&square).add(&one());
    match root_of_ratio(&u, &v) {
        None => None,
        Some(x) => signed_point(x, y, sign),
    }
}
