//! Points, and their sums by the complete formulas of Renes, Costello and Batina (IACR ePrint
//! 2015/1060), which need no special case for infinity or for equal points.
ghost use Rattle.std.specs.Prelude.{◌≡◌, ◌+◌, ◌%◌, nat_eq};
ghost use Rattle.it_p256_limbs.specs.Numbers.{value_of};
ghost use Rattle.it_p256_field.specs.Prime.{prime};
ghost use Rattle.it_p256_point.specs.Points.{cross_of, infinity, affine, base, sum_of, double_of};
ghost use Rattle.it_p256_point.specs.Points.{added_by, sum_of_multiples, first_coordinate};

use crate::curve::curve_constant;
use it_p256_field::FieldElement;
use it_p256_limbs::{Limbs, bit_at};

/// A point of the curve in homogeneous coordinates: x / z and y / z are its coordinates, and z is 0
/// at infinity.
#[derive(Drop)]
pub struct Point {
    pub x: FieldElement,
    pub y: FieldElement,
    pub z: FieldElement,
}

impl Point {
    /// The point at infinity.
    pub fn infinity() -> Point
        ensures { result ≡ infinity }
    {
        Point {
            x: FieldElement::zero(),
            y: FieldElement::one(),
            z: FieldElement::zero(),
        }
    }

    /// The point with these coordinates.
    pub fn affine(x: FieldElement, y: FieldElement) -> Point
        ensures { result ≡ affine x y }
    {
        Point {
            x,
            y,
            z: FieldElement::one(),
        }
    }

    /// The base point G.
    pub fn base() -> Point
        ensures { result ≡ base }
    {
        Point {
            x: FieldElement::from_montgomery_form(Limbs(
                8_784_043_285_714_375_740,
                8_483_257_759_279_461_889,
                8_789_745_728_267_363_600,
                1_770_019_616_739_251_654,
            )),
            y: FieldElement::from_montgomery_form(Limbs(
                15_992_936_863_339_206_154,
                10_037_038_012_062_884_956,
                15_197_544_864_945_402_661,
                9_615_747_158_586_711_429,
            )),
            z: FieldElement::one(),
        }
    }

    /// Whether this is the point at infinity.
    pub fn is_infinity(&self) -> bool
        ensures { result ≡ nat_eq self.now.z 0 }
    {
        self.z.is_same(&FieldElement::zero())
    }

    /// The first coordinate x / z, of a point other than infinity.
    pub fn first_coordinate(&self) -> FieldElement
        ensures { result ≡ first_coordinate self.now }
    {
        self.x.multiply(&self.z.inverse())
    }

    /// The sum of two points.
    pub fn add(&self, other: &Point) -> Point
        ensures { result ≡ sum_of self.now other.now }
    {
        let xx = self.x.multiply(&other.x);
        let yy = self.y.multiply(&other.y);
        let zz = self.z.multiply(&other.z);
        let xy = cross(&self.x, &self.y, &other.x, &other.y, &xx.add(&yy));
        let yz = cross(&self.y, &self.z, &other.y, &other.z, &yy.add(&zz));
        let xz = cross(&self.x, &self.z, &other.x, &other.z, &xx.add(&zz));
        let b = curve_constant();
        let c3 = thrice(&xz.subtract(&b.multiply(&zz)));
        let low = yy.subtract(&c3);
        let high = yy.add(&c3);
        let zz3 = thrice(&zz);
        let d3 = thrice(&b.multiply(&xz).subtract(&zz3).subtract(&xx));
        let e = thrice(&xx).subtract(&zz3);
        Point {
            x: xy.multiply(&high).subtract(&yz.multiply(&d3)),
            y: high.multiply(&low).add(&e.multiply(&d3)),
            z: yz.multiply(&low).add(&xy.multiply(&e)),
        }
    }

    /// The sum of the point and itself.
    pub fn double(&self) -> Point
        ensures { result ≡ double_of self.now }
    {
        let xx = self.x.square();
        let yy = self.y.square();
        let zz = self.z.square();
        let xy = self.x.multiply(&self.y);
        let xy2 = xy.add(&xy);
        let xz = self.x.multiply(&self.z);
        let xz2 = xz.add(&xz);
        let b = curve_constant();
        let c3 = thrice(&b.multiply(&zz).subtract(&xz2));
        let low = yy.subtract(&c3);
        let high = yy.add(&c3);
        let zz3 = thrice(&zz);
        let d3 = thrice(&b.multiply(&xz2).subtract(&zz3).subtract(&xx));
        let e = thrice(&xx).subtract(&zz3);
        let yz = self.y.multiply(&self.z);
        let yz2 = yz.add(&yz);
        let w = yz2.multiply(&yy);
        let w2 = w.add(&w);
        Point {
            x: low.multiply(&xy2).subtract(&yz2.multiply(&d3)),
            y: high.multiply(&low).add(&e.multiply(&d3)),
            z: w2.add(&w2),
        }
    }

    /// `n` times the point plus `m` times the other, by double and add over the bits of both
    /// numbers at once.
    pub fn sum_of_multiples(&self, n: Limbs, other: &Point, m: Limbs) -> Point
        ensures { result ≡ sum_of_multiples 256 (value_of n) (value_of m) self.now other.now }
    {
        let sums = Sums {
            first: self,
            second: other,
            both: &self.add(other),
        };
        let mut total = Point::infinity();
        for i in 0..256 {
            let (first, second) = (bit_at(n, 255 - i), bit_at(m, 255 - i));
            total = sums.added_to(total.double(), first, second);
        }
        total
    }
}

/// Two points, and their sum.
#[derive(Drop)]
struct Sums<'a> {
    first: &'a Point,
    second: &'a Point,
    both: &'a Point,
}

impl Sums<'_> {
    /// The total, plus the first point where the first bit is 1, and plus the second where the
    /// second one is.
    #[inline(always)]
    fn added_to(&self, total: Point, first: bool, second: bool) -> Point
        requires { self.now.both.now ≡ sum_of self.now.first.now self.now.second.now }
        ensures { result ≡ added_by first second self.now.first.now self.now.second.now total }
    {
        match (first, second) {
            (true, true) => total.add(self.both),
            (true, false) => total.add(self.first),
            (false, true) => total.add(self.second),
            (false, false) => total,
        }
    }
}

// Three times the number.
#[inline(always)]
fn thrice(n: &FieldElement) -> FieldElement
    ensures { result ≡ ((n.now + n.now) % prime + n.now) % prime }
{
    n.add(n).add(n)
}

// (a + b) (c + d), less `rest`.
#[inline(always)]
fn cross(
    a: &FieldElement,
    b: &FieldElement,
    c: &FieldElement,
    d: &FieldElement,
    rest: &FieldElement,
) -> FieldElement
    ensures { result ≡ cross_of a.now b.now c.now d.now rest.now }
{
    a.add(b).multiply(&c.add(d)).subtract(rest)
}
