//! Multiples of a point, by its doubles.
ghost use Rattle.std.specs.Prelude.{◌≡◌, IfOk};
ghost use Rattle.it_ed_point.specs.Curve.{multiple_of};

use crate::point::Point;
use it_ed_scalar::scalar::Scalar;
use std::alloc::{AllocError, Global};
use std::marker::Model;

/// How many bits a number below the order has.
const BITS: usize = 253;

/// A point and its doubles, by which a multiple takes sums alone. To a contract it is the point.
#[derive(Drop)]
pub struct Multiplier {
    point: Point,
    /// The point, its double, the double of that, and so on.
    doubles: Vec<Point>,
}

impl Model for Multiplier {
    ghost use Rattle.it_ed_point.specs.declared.point.Point.{Point};
    ghost use Rattle.it_ed_point.specs.inside.Doubles.{AreDoubles};

    ghost Value = { Point };

    ghost view = { λ m. m.point };

    ghost invariant = { λ m. AreDoubles 253 m.point m.doubles.items };
}

impl Multiplier {
    /// Doubles a point as often as a multiple of it may need.
    ///
    /// # Errors
    ///
    /// `AllocError` where memory was refused.
    pub fn of(alloc: Global, point: &Point) -> Result<Multiplier, AllocError>
        ensures { IfOk result (λ multiplier. multiplier ≡ point.now) }
    {
        let mut doubles = Vec::with_capacity(alloc, BITS)?;
        let mut step = point.copy();
        for place in 0..BITS {
            let next = step.double();
            doubles.push(step)?;
            step = next;
        }
        Ok(Multiplier {
            point: point.copy(),
            doubles,
        })
    }

    /// The point times a number.
    pub fn multiply(&self, scalar: &Scalar) -> Point
        ensures { result ≡ multiple_of scalar.now self.now }
    {
        let mut total = Point::neutral();
        for place in 0..BITS {
            if scalar.bit_at(place) {
                total = total.add(&self.doubles[place]);
            }
        }
        total
    }
}
