//! Points, and their sums by the complete formulas of Renes, Costello and Batina (IACR ePrint
//! 2015/1060), which need no special case for infinity or for equal points.
ghost use Rattle.std.specs.Prelude.{◌≡◌, ◌+◌, ◌%◌, nat_eq};
ghost use Rattle.it_limb_slices.specs.Limbs.{number_of};
ghost use Rattle.it_p384_field.specs.Prime.{prime};
ghost use Rattle.it_p384_point.specs.Points.{cross_of, infinity, affine, base, sum_of, double_of};
ghost use Rattle.it_p384_point.specs.Points.{added_by, first_coordinate, sum_of_multiples};

use crate::curve::curve_constant;
use it_limb_slices::bit_at;
use it_p384_field::FieldElement;

/// A point of the curve in homogeneous coordinates: x / z and y / z are its coordinates, and z is 0
/// at infinity.
#[derive(Drop)]
pub struct Point {
    pub x: FieldElement,
    pub y: FieldElement,
    pub z: FieldElement,
}

impl Point {
    /// The point at infinity.
    pub fn infinity() -> Point
        ensures { result ≡ infinity }
    {
        Point {
            x: FieldElement::zero(),
            y: FieldElement::one(),
            z: FieldElement::zero(),
        }
    }

    /// The point with these coordinates.
    pub fn affine(x: FieldElement, y: FieldElement) -> Point
        ensures { result ≡ affine x y }
    {
        Point {
            x,
            y,
            z: FieldElement::one(),
        }
    }

    /// The base point G.
    pub fn base() -> Point
        ensures { result ≡ base }
    {
        Point {
            x: FieldElement::from_montgomery_form([
                4_454_189_113_653_900_584,
                2_369_870_743_683_386_936,
                9_771_750_146_904_378_734,
                7_229_551_204_834_152_191,
                9_308_930_686_126_579_243,
                5_564_951_339_003_155_731,
            ]),
            y: FieldElement::from_montgomery_form([
                2_523_209_505_731_486_974,
                11_655_219_901_025_790_380,
                10_064_955_099_576_512_592,
                14_322_381_509_056_856_025,
                15_960_759_442_596_276_288,
                3_132_442_392_059_561_449,
            ]),
            z: FieldElement::one(),
        }
    }

    /// Whether this is the point at infinity.
    pub fn is_infinity(&self) -> bool
        ensures { result ≡ nat_eq self.now.z 0 }
    {
        self.z.is_same(&FieldElement::zero())
    }

    /// The first coordinate x / z, of a point other than infinity.
    pub fn first_coordinate(&self) -> FieldElement
        ensures { result ≡ first_coordinate self.now }
    {
        self.x.multiply(&self.z.inverse())
    }

    /// The sum of two points.
    pub fn add(&self, other: &Point) -> Point
        ensures { result ≡ sum_of self.now other.now }
    {
        let xx = self.x.multiply(&other.x);
        let yy = self.y.multiply(&other.y);
        let zz = self.z.multiply(&other.z);
        let xy = cross(&self.x, &self.y, &other.x, &other.y, &xx.add(&yy));
        let yz = cross(&self.y, &self.z, &other.y, &other.z, &yy.add(&zz));
        let xz = cross(&self.x, &self.z, &other.x, &other.z, &xx.add(&zz));
        let b = curve_constant();
        let c3 = thrice(&xz.subtract(&b.multiply(&zz)));
        let low = yy.subtract(&c3);
        let high = yy.add(&c3);
        let zz3 = thrice(&zz);
        let d3 = thrice(&b.multiply(&xz).subtract(&zz3).subtract(&xx));
        let e = thrice(&xx).subtract(&zz3);
        Point {
            x: xy.multiply(&high).subtract(&yz.multiply(&d3)),
            y: high.multiply(&low).add(&e.multiply(&d3)),
            z: yz.multiply(&low).add(&xy.multiply(&e)),
        }
    }

    /// The sum of the point and itself.
    pub fn double(&self) -> Point
        ensures { result ≡ double_of self.now }
    {
        let xx = self.x.square();
        let yy = self.y.square();
        let zz = self.z.square();
        let xy = self.x.multiply(&self.y);
        let xy2 = xy.add(&xy);
        let xz = self.x.multiply(&self.z);
        let xz2 = xz.add(&xz);
        let b = curve_constant();
        let c3 = thrice(&b.multiply(&zz).subtract(&xz2));
        let low = yy.subtract(&c3);
        let high = yy.add(&c3);
        let zz3 = thrice(&zz);
        let d3 = thrice(&b.multiply(&xz2).subtract(&zz3).subtract(&xx));
        let e = thrice(&xx).subtract(&zz3);
        let yz = self.y.multiply(&self.z);
        let yz2 = yz.add(&yz);
        let w = yz2.multiply(&yy);
        let w2 = w.add(&w);
        Point {
            x: low.multiply(&xy2).subtract(&yz2.multiply(&d3)),
            y: high.multiply(&low).add(&e.multiply(&d3)),
            z: w2.add(&w2),
        }
    }

    /// `n` times the point plus `m` times the other, by double and add over the bits of both
    /// numbers at once; the numbers are in limbs, lowest first.
    pub fn sum_of_multiples(&self, n: &[u64; 6], other: &Point, m: &[u64; 6]) -> Point
        ensures { result ≡ sum_of_multiples 384 (number_of n.now) (number_of m.now) self.now
            other.now }
    {
        let sums = Sums {
            first: self,
            second: other,
            both: &self.add(other),
        };
        let mut total = Point::infinity();
        for i in 0..384 {
            let (first, second) = (bit_at(n, 383 - i), bit_at(m, 383 - i));
            total = sums.added_to(total.double(), first, second);
        }
        total
    }
}

/// Two points, and their sum.
#[derive(Drop)]
struct Sums<'a> {
    first: &'a Point,
    second: &'a Point,
    both: &'a Point,
}

impl Sums<'_> {
    /// The total, plus the first point where the first bit is 1, and plus the second where the
    /// second one is.
    #[inline(always)]
    fn added_to(&self, total: Point, first: bool, second: bool) -> Point
        requires { self.now.both.now ≡ sum_of self.now.first.now self.now.second.now }
        ensures { result ≡ added_by first second self.now.first.now self.now.second.now total }
    {
        match (first, second) {
            (true, true) => total.add(self.both),
            (true, false) => total.add(self.first),
            (false, true) => total.add(self.second),
            (false, false) => total,
        }
    }
}

// Three times the number.
#[inline(always)]
fn thrice(n: &FieldElement) -> FieldElement
    ensures { result ≡ ((n.now + n.now) % prime + n.now) % prime }
{
    n.add(n).add(n)
}

// (a + b) (c + d), less `rest`.
#[inline(always)]
fn cross(
    a: &FieldElement,
    b: &FieldElement,
    c: &FieldElement,
    d: &FieldElement,
    rest: &FieldElement,
) -> FieldElement
    ensures { result ≡ cross_of a.now b.now c.now d.now rest.now }
{
    a.add(b).multiply(&c.add(d)).subtract(rest)
}
