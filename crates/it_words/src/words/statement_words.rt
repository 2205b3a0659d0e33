//! The words of `itv statement`.
ghost use Rattle.std.specs.Prelude.{IfErr, IfOk};
ghost use Rattle.it_words.specs.Values.{IsStatement};
ghost use Rattle.it_words.specs.inside.Unfit.{FitsNone};

use super::values::{Values, ValuesFault};
use it_base::text::Text;

/// The values of `itv statement`.
#[derive(Drop)]
pub struct StatementWords {
    /// The path of the subjects' digest list.
    pub sums: Text,
    /// The id of the builder.
    pub builder: Text,
    /// The type of the build.
    pub build_type: Text,
    /// The path of the external parameters' file, where there is one.
    pub parameters: Option<Text>,
}

/// The command's values, or `Unfit` where one is missing.
pub(super) fn read(values: &Values<'_, '_>) -> Result<StatementWords, ValuesFault>
    ensures found { IfOk result (IsStatement values.now) }
    ensures unfit { IfErr result (FitsNone (IsStatement values.now)) }
{
    Ok(StatementWords {
        sums: values.needed("sums")?,
        builder: values.needed("builder")?,
        build_type: values.needed("build-type")?,
        parameters: values.optional("parameters")?,
    })
}
