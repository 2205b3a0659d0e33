//! Points in extended coordinates (RFC 8032, section 5.1.4).
ghost use Rattle.std.specs.Prelude.{◌≡◌, ◌*◌, ◌/◌, ◌%◌, ◌^◌, ◌<◌};
ghost use Rattle.it_ed_scalar.specs.Order.{order};
ghost use Rattle.it_ed_point.specs.Curve.{neutral, base, sum_of, double_of, opposite_of};
ghost use Rattle.it_ed_point.specs.Curve.{multiple_of, is_neutral};
ghost use Rattle.it_ed_point.specs.Encoding.{encoding_of, decoded};

use crate::base_doubles::base_multiple;
use crate::constants::{one, twice_curve_constant, zero};
use crate::decoding::point_at;
use it_ed_field::bits::top_bit;
use it_ed_field::field_element::FieldElement;
use it_ed_scalar::scalar::Scalar;

/// A point of the curve: its coordinates are x / z and y / z, and t is x y / z.
#[derive(Drop)]
pub struct Point {
    pub(crate) x: FieldElement,
    pub(crate) y: FieldElement,
    pub(crate) z: FieldElement,
    pub(crate) t: FieldElement,
}

impl Point {
    /// The neutral point.
    pub fn neutral() -> Point
        ensures { result ≡ neutral }
    {
        Point {
            x: zero(),
            y: one(),
            z: one(),
            t: zero(),
        }
    }

    /// The base point B.
    pub fn base() -> Point
        ensures { result ≡ base }
    {
        Point {
            x: FieldElement::from_limbs(
                1_738_742_601_995_546,
                1_146_398_526_822_698,
                2_070_867_633_025_821,
                562_264_141_797_630,
                587_772_402_128_613,
            ),
            y: FieldElement::from_limbs(
                1_801_439_850_948_184,
                1_351_079_888_211_148,
                450_359_962_737_049,
                900_719_925_474_099,
                1_801_439_850_948_198,
            ),
            z: one(),
            t: FieldElement::from_limbs(
                1_841_354_044_333_475,
                16_398_895_984_059,
                755_974_180_946_558,
                900_171_276_175_154,
                1_821_297_809_914_039,
            ),
        }
    }

    /// A copy of the point.
    pub fn copy(&self) -> Point
        ensures { result ≡ self.now }
    {
        Point {
            x: self.x.copy(),
            y: self.y.copy(),
            z: self.z.copy(),
            t: self.t.copy(),
        }
    }

    /// The sum of two points.
    pub fn add(&self, other: &Point) -> Point
        ensures { result ≡ sum_of self.now other.now }
    {
        let a = self
            .y
            .subtract(&self.x)
            .multiply(&other.y.subtract(&other.x));
        let b = self.y.add(&self.x).multiply(&other.y.add(&other.x));
        let c = self.t.multiply(&twice_curve_constant()).multiply(&other.t);
        let d = self.z.add(&self.z).multiply(&other.z);
        let e = b.subtract(&a);
        let f = d.subtract(&c);
        let g = d.add(&c);
        let h = b.add(&a);
        Point {
            x: e.multiply(&f),
            y: g.multiply(&h),
            z: f.multiply(&g),
            t: e.multiply(&h),
        }
    }

    /// The sum of the point and itself.
    pub fn double(&self) -> Point
        ensures { result ≡ double_of self.now }
    {
        let a = self.x.square();
        let b = self.y.square();
        let square = self.z.square();
        let c = square.add(&square);
        let h = a.add(&b);
        let s = self.x.add(&self.y);
        let e = h.subtract(&s.square());
        let g = a.subtract(&b);
        let f = c.add(&g);
        Point {
            x: e.multiply(&f),
            y: g.multiply(&h),
            z: f.multiply(&g),
            t: e.multiply(&h),
        }
    }

    /// The point with the opposite x.
    pub fn negate(&self) -> Point
        ensures { result ≡ opposite_of self.now }
    {
        Point {
            x: zero().subtract(&self.x),
            y: self.y.copy(),
            z: self.z.copy(),
            t: zero().subtract(&self.t),
        }
    }

    /// The point times a number.
    pub fn multiply(&self, scalar: &Scalar) -> Point
        ensures { result ≡ multiple_of scalar.now self.now }
    {
        let mut total = Point::neutral();
        let mut step = self.copy();
        for place in 0..253usize {
            if scalar.bit_at(place) {
                total = total.add(&step);
            }
            step = step.double();
        }
        total
    }

    /// The base point times a number.
    pub fn multiple_of_base(scalar: &Scalar) -> Point
        ensures { result ≡ multiple_of scalar.now base }
    {
        base_multiple(scalar)
    }

    /// Whether this is the neutral point.
    pub fn is_neutral(&self) -> bool
        ensures { result ≡ is_neutral self.now }
    {
        self.x.is_same(&zero()) && self.y.is_same(&self.z)
    }

    /// The 32 bytes of the point (RFC 8032, section 5.1.2).
    pub fn encode(&self) -> [u8; 32]
        ensures { result ≡ encoding_of self.now }
    {
        let inverse = self.z.inverse();
        let x = self.x.multiply(&inverse);
        let y = self.y.multiply(&inverse);
        y.to_bytes(x.parity())
    }

    /// The point that 32 bytes encode, if they encode one (RFC 8032, section 5.1.3).
    pub fn decode(bytes: &[u8; 32]) -> Option<Point>
        ensures { result ≡ decoded bytes.now }
    {
        match FieldElement::from_bytes(bytes) {
            None => None,
            Some(y) => point_at(y, top_bit(bytes)),
        }
    }
}
