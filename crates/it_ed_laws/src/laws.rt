//! Laws about points of the curve: functions that do nothing, and whose contracts say what is true
//! of every point.
ghost use Rattle.std.specs.Prelude.{◌≡◌, IfSome};
ghost use Rattle.it_ed_point.specs.Curve.{base, neutral, opposite_of, sum_of, double_of};
ghost use Rattle.it_ed_point.specs.Encoding.{decoded};
ghost use Rattle.it_ed_point.specs.declared.point.Point.{Point};
ghost use Rattle.it_ed_laws.specs.OnCurve.{IsReduced, IsOnCurve, IsSamePoint};

/// A point that is decoded from bytes is on the curve, and its z is 1.
pub fn decoded_is_on_curve(bytes: &[u8; 32])
    ensures on_curve { IfSome (decoded bytes.now) IsOnCurve }
    ensures affine { IfSome (decoded bytes.now) (λ point. point.z ≡ 1) }
{}

/// The neutral point and the base point are on the curve.
pub fn constants_are_on_curve()
    ensures neutral_point { IsOnCurve neutral }
    ensures base_point { IsOnCurve base }
{}

/// The sum of a point and the neutral point, on either side, is that point.
pub fn sum_with_neutral()
    ensures after { (point : Point) → IsReduced point → IsSamePoint (sum_of point neutral) point }
    ensures before { (point : Point) → IsReduced point → IsSamePoint (sum_of neutral point) point }
{}

/// The double of a point of the curve is the sum of the point and itself.
pub fn double_is_sum()
    ensures { (point : Point) → IsOnCurve point
        → IsSamePoint (double_of point) (sum_of point point) }
{}

/// The opposite of a point of the curve is on the curve, and the sum of both is the neutral point.
pub fn sum_with_opposite()
    ensures on_curve { (point : Point) → IsOnCurve point → IsOnCurve (opposite_of point) }
    ensures sum { (point : Point) → IsOnCurve point
        → IsSamePoint (sum_of point (opposite_of point)) neutral }
{}
