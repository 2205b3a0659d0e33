//! The curve's equation.
ghost use Rattle.std.specs.Prelude.{◌≡◌};
ghost use Rattle.it_p256_point.specs.Curve.{curve_b, right_side, is_on_curve};

use it_p256_field::FieldElement;
use it_p256_limbs::Limbs;

/// Whether the point with these coordinates lies on the curve.
pub fn is_on_curve(x: &FieldElement, y: &FieldElement) -> bool
    ensures { result ≡ is_on_curve x.now y.now }
{
    y.multiply(y).is_same(&right_side(x))
}

// x ^ 3 - 3 x + b
fn right_side(x: &FieldElement) -> FieldElement
    ensures { result ≡ right_side x.now }
{
    x.multiply(&x.multiply(x).subtract(&three()))
        .add(&curve_constant())
}

/// The constant b of the curve.
pub(crate) fn curve_constant() -> FieldElement
    ensures { result ≡ curve_b }
{
    FieldElement::from_montgomery_form(Limbs(
        15_608_596_021_259_845_087,
        12_461_466_548_982_526_096,
        16_546_823_903_870_267_094,
        15_866_188_208_926_050_356,
    ))
}

fn three() -> FieldElement
    ensures { result ≡ 3 }
{
    FieldElement::from_limbs(Limbs(3, 0, 0, 0))
}
