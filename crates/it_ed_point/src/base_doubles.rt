//! Multiples of the base point, by a table of its doubles.
ghost use Rattle.std.specs.Prelude.{◌≡◌, ◌<◌};
ghost use Rattle.it_ed_point.specs.Curve.{base, multiple_of};
ghost use Rattle.it_ed_point.specs.inside.Doubles.{doubled, AreLimbs, HoldsPoint, number_in};

use crate::base_table::BASE_DOUBLES;
use crate::point::Point;
use it_ed_field::field_element::FieldElement;
use it_ed_scalar::scalar::Scalar;

/// Five limbs of 51 bits of a number, lowest first.
pub(crate) struct Limbs(
    pub(crate) u64,
    pub(crate) u64,
    pub(crate) u64,
    pub(crate) u64,
    pub(crate) u64,
);

impl Limbs {
    fn number(&self) -> FieldElement
        requires { AreLimbs self.now }
        ensures { result ≡ number_in self.now }
    {
        FieldElement::from_limbs(self.0, self.1, self.2, self.3, self.4)
    }
}

/// The coordinates of a point, by their limbs.
pub(crate) struct Coordinates {
    pub(crate) x: Limbs,
    pub(crate) y: Limbs,
    pub(crate) z: Limbs,
    pub(crate) t: Limbs,
}

/// The coordinates of the base point, doubled so many times.
fn coordinates_of(place: usize) -> &'static Coordinates
    requires { place < 253 }
    ensures { HoldsPoint result.now (doubled place base) }
{
    &BASE_DOUBLES[place]
}

/// The base point, doubled so many times.
fn base_double(place: usize) -> Point
    requires { place < 253 }
    ensures { result ≡ doubled place base }
{
    let coordinates = coordinates_of(place);
    Point {
        x: coordinates.x.number(),
        y: coordinates.y.number(),
        z: coordinates.z.number(),
        t: coordinates.t.number(),
    }
}

/// The base point times a number.
pub(crate) fn base_multiple(scalar: &Scalar) -> Point
    ensures { result ≡ multiple_of scalar.now base }
{
    let mut total = Point::neutral();
    for place in 0..253usize {
        if scalar.bit_at(place) {
            total = total.add(&base_double(place));
        }
    }
    total
}
