//! The words of `itv check`.
ghost use Rattle.std.specs.Prelude.{IfErr, IfOk};
ghost use Rattle.it_words.specs.Values.{IsCheck};
ghost use Rattle.it_words.specs.inside.Unfit.{FitsNone};

use super::values::{Values, ValuesFault, has_either};
use it_base::text::Text;

/// The values of `itv check`: at least one of them is given.
#[derive(Drop)]
pub struct CheckWords {
    /// The path of the policy's file, where there is one.
    pub policy: Option<Text>,
    /// The path of the layout's file, where there is one.
    pub layout: Option<Text>,
}

/// The command's values, or `Unfit` where there is neither a policy nor a layout.
pub(super) fn read(values: &Values<'_, '_>) -> Result<CheckWords, ValuesFault>
    ensures found { IfOk result (IsCheck values.now) }
    ensures unfit { IfErr result (FitsNone (IsCheck values.now)) }
{
    let policy = values.optional("policy")?;
    let layout = values.optional("layout")?;
    if !has_either(&policy, &layout) {
        return Err(ValuesFault::Unfit);
    }
    Ok(CheckWords { policy, layout })
}
