//! The words of `itv pae`.
ghost use Rattle.std.specs.Prelude.{IfErr, IfOk};
ghost use Rattle.it_words.specs.Values.{IsPae};
ghost use Rattle.it_words.specs.inside.Unfit.{FitsNone};

use super::values::{Values, ValuesFault};
use it_base::text::Text;

/// The values of `itv pae`.
#[derive(Drop)]
pub struct PaeWords {
    /// The path of the body's file.
    pub body: Text,
    /// The type of the body.
    pub kind: Text,
}

/// The command's values, or `Unfit` where one is missing.
pub(super) fn read(values: &Values<'_, '_>) -> Result<PaeWords, ValuesFault>
    ensures found { IfOk result (IsPae values.now) }
    ensures unfit { IfErr result (FitsNone (IsPae values.now)) }
{
    Ok(PaeWords {
        body: values.needed("body")?,
        kind: values.needed("type")?,
    })
}
