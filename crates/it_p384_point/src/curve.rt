//! The curve's equation.
ghost use Rattle.std.specs.Prelude.{◌≡◌};
ghost use Rattle.it_p384_point.specs.Curve.{curve_b, right_side, is_on_curve};

use it_p384_field::FieldElement;

/// Whether the point with these coordinates lies on the curve.
pub fn is_on_curve(x: &FieldElement, y: &FieldElement) -> bool
    ensures { result ≡ is_on_curve x.now y.now }
{
    y.multiply(y).is_same(&right_side(x))
}

// x ^ 3 - 3 x + b
fn right_side(x: &FieldElement) -> FieldElement
    ensures { result ≡ right_side x.now }
{
    x.multiply(&x.multiply(x).subtract(&three()))
        .add(&curve_constant())
}

/// The constant b of the curve.
pub(crate) fn curve_constant() -> FieldElement
    ensures { result ≡ curve_b }
{
    FieldElement::from_montgomery_form([
        581_395_848_458_481_100,
        17_809_957_346_689_692_396,
        8_643_006_485_390_950_958,
        16_372_638_458_395_724_514,
        13_126_622_871_277_412_500,
        14_774_077_593_024_970_745,
    ])
}

fn three() -> FieldElement
    ensures { result ≡ 3 }
{
    FieldElement::from_limbs(&[3, 0, 0, 0, 0, 0])
}
