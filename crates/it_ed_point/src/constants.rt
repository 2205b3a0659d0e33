//! The constants of the curve.
ghost use Rattle.std.specs.Prelude.{◌≡◌};
ghost use Rattle.it_ed_field.specs.Prime.{plus_mod};
ghost use Rattle.it_ed_point.specs.Curve.{curve_d, root_of_minus_one};

use it_ed_field::field_element::FieldElement;

pub(crate) fn zero() -> FieldElement
    ensures { result ≡ 0 }
{
    FieldElement::from_limbs(0, 0, 0, 0, 0)
}

pub(crate) fn one() -> FieldElement
    ensures { result ≡ 1 }
{
    FieldElement::from_limbs(1, 0, 0, 0, 0)
}

/// The constant d of the curve's equation.
pub(crate) fn curve_constant() -> FieldElement
    ensures { result ≡ curve_d }
{
    FieldElement::from_limbs(
        929_955_233_495_203,
        466_365_720_129_213,
        1_662_059_464_998_953,
        2_033_849_074_728_123,
        1_442_794_654_840_575,
    )
}

pub(crate) fn twice_curve_constant() -> FieldElement
    ensures { result ≡ plus_mod curve_d curve_d }
{
    FieldElement::from_limbs(
        1_859_910_466_990_425,
        932_731_440_258_426,
        1_072_319_116_312_658,
        1_815_898_335_770_999,
        633_789_495_995_903,
    )
}

pub(crate) fn root_of_minus_one() -> FieldElement
    ensures { result ≡ root_of_minus_one }
{
    FieldElement::from_limbs(
        1_718_705_420_411_056,
        234_908_883_556_509,
        2_233_514_472_574_048,
        2_117_202_627_021_982,
        765_476_049_583_133,
    )
}
