//! The words of `itv signed`.
ghost use Rattle.std.specs.Prelude.{IfErr, IfOk};
ghost use Rattle.it_words.specs.Values.{IsSigned, IsSignedBy};
ghost use Rattle.it_words.specs.inside.Unfit.{FitsNone};

use super::values::{Values, ValuesFault};
use clap::ArgMatches;
use it_base::text::Text;

/// The values of `itv signed`.
#[derive(Drop)]
pub struct SignedWords {
    /// The path of the envelope's file; with a trusted root it may be that of a bundle.
    pub envelope: Text,
    /// What signatures are checked by.
    pub by: SignedBy,
}

/// What the signatures of an envelope are checked by.
#[derive(Drop)]
pub enum SignedBy {
    /// The ring of secrets in the file at this path.
    Ring(Text),
    /// The public keys in the file at this path.
    Keys(Text),
    /// The public keys in a file, and the identities in it, as far as a bundle vouches for them.
    Trusted(TrustedPaths),
}

/// The files by which the signatures of a bundle are checked.
#[derive(Drop)]
pub struct TrustedPaths {
    /// The path of the file of public keys and identities.
    pub keys: Text,
    /// The path of the file of the trusted root.
    pub root: Text,
}

/// The command's values, or `Unfit` where one is missing, or they do not fit together.
pub(super) fn read(values: &Values<'_, '_>) -> Result<SignedWords, ValuesFault>
    ensures found { IfOk result (IsSigned values.now) }
    ensures unfit { IfErr result (FitsNone (IsSigned values.now)) }
{
    Ok(SignedWords {
        envelope: values.needed("envelope")?,
        by: signed_by(values)?,
    })
}

/// What signatures are checked by, or `Unfit` where neither a ring nor keys are given, or something
/// beside a ring.
fn signed_by(values: &Values<'_, '_>) -> Result<SignedBy, ValuesFault>
    ensures found { IfOk result (IsSignedBy values.now) }
    ensures unfit { IfErr result (FitsNone (IsSignedBy values.now)) }
{
    if let Some(ring) = values.optional("ring")? {
        values.absent("keys")?;
        values.absent("trusted-root")?;
        return Ok(SignedBy::Ring(ring));
    }
    let keys = values.needed("keys")?;
    match values.optional("trusted-root")? {
        Some(root) => Ok(SignedBy::Trusted(TrustedPaths { keys, root })),
        None => Ok(SignedBy::Keys(keys)),
    }
}

/// What is wrong with values that do not fit together.
pub(super) fn misfit(values: &ArgMatches<'_>) -> &'static str {
    let has_root = values.get_str("trusted-root").is_some();
    match (values.get_str("ring"), values.get_str("keys")) {
        (Some(_), Some(_)) => "the options '--ring <F>' and '--keys <F>' are both given",
        (Some(_), None) => "the options '--ring <F>' and '--trusted-root <F>' are both given",
        (None, _) if has_root => "the option '--trusted-root <F>' is given without '--keys <F>'",
        (None, _) => "neither '--ring <F>' nor '--keys <F>' is given",
    }
}
