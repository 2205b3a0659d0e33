//! The words of `itv payload`.
ghost use Rattle.std.specs.Prelude.{IfErr, IfOk};
ghost use Rattle.it_words.specs.Values.{IsPayload};
ghost use Rattle.it_words.specs.inside.Unfit.{FitsNone};

use super::values::{Values, ValuesFault};
use it_base::text::Text;

/// The values of `itv payload`.
#[derive(Drop)]
pub struct PayloadWords {
    /// The path of the envelope's file.
    pub envelope: Text,
}

/// The command's values, or `Unfit` where there is no envelope.
pub(super) fn read(values: &Values<'_, '_>) -> Result<PayloadWords, ValuesFault>
    ensures found { IfOk result (IsPayload values.now) }
    ensures unfit { IfErr result (FitsNone (IsPayload values.now)) }
{
    Ok(PayloadWords {
        envelope: values.needed("envelope")?,
    })
}
