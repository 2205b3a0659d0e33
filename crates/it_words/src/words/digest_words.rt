//! The words of `itv digest`.
ghost use Rattle.std.specs.Prelude.{IfErr, IfOk};
ghost use Rattle.it_words.specs.Values.{IsDigest};
ghost use Rattle.it_words.specs.inside.Unfit.{FitsNone};

use super::values::{Values, ValuesFault};
use it_base::sequence::Sequence;
use it_base::text::Text;

/// The values of `itv digest`.
#[derive(Drop)]
pub struct DigestWords {
    /// The paths, in the order of the words; there is at least one.
    pub paths: Sequence<Text>,
    /// Whether a folder is taken for the files below it.
    pub recursive: bool,
    /// Whether the list is by SHA-512, in place of SHA-256.
    pub sha512: bool,
}

/// The command's values, or `Unfit` where there is no path.
pub(super) fn read(values: &Values<'_, '_>) -> Result<DigestWords, ValuesFault>
    ensures found { IfOk result (IsDigest values.now) }
    ensures unfit { IfErr result (FitsNone (IsDigest values.now)) }
{
    Ok(DigestWords {
        paths: values.all("path")?,
        recursive: values.is_given("recursive"),
        sha512: values.is_given("sha512"),
    })
}
