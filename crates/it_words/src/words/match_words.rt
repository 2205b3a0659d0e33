//! The words of `itv match`.
ghost use Rattle.std.specs.Prelude.{IfErr, IfOk};
ghost use Rattle.it_words.specs.Values.{IsMatch};
ghost use Rattle.it_words.specs.inside.Unfit.{FitsNone};

use super::values::{Values, ValuesFault};
use it_base::text::Text;

/// The values of `itv match`.
#[derive(Drop)]
pub struct MatchWords {
    /// The pattern's text.
    pub pattern: Text,
    /// The path that it is matched against.
    pub path: Text,
}

/// The command's values, or `Unfit` where one is missing.
pub(super) fn read(values: &Values<'_, '_>) -> Result<MatchWords, ValuesFault>
    ensures found { IfOk result (IsMatch values.now) }
    ensures unfit { IfErr result (FitsNone (IsMatch values.now)) }
{
    Ok(MatchWords {
        pattern: values.needed("pattern")?,
        path: values.needed("path")?,
    })
}
