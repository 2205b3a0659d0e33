//! The words of `itv link`.
ghost use Rattle.std.specs.Prelude.{IfErr, IfOk};
ghost use Rattle.it_words.specs.Values.{IsLink};
ghost use Rattle.it_words.specs.inside.Unfit.{FitsNone};

use super::values::{Values, ValuesFault};
use it_base::text::Text;

/// The values of `itv link`.
#[derive(Drop)]
pub struct LinkWords {
    /// The name of the step.
    pub name: Text,
    /// The path of the materials' digest list, where there is one.
    pub materials: Option<Text>,
    /// The path of the products' digest list, where there is one.
    pub products: Option<Text>,
}

/// The command's values, or `Unfit` where one is missing.
pub(super) fn read(values: &Values<'_, '_>) -> Result<LinkWords, ValuesFault>
    ensures found { IfOk result (IsLink values.now) }
    ensures unfit { IfErr result (FitsNone (IsLink values.now)) }
{
    Ok(LinkWords {
        name: values.needed("name")?,
        materials: values.optional("materials")?,
        products: values.optional("products")?,
    })
}
