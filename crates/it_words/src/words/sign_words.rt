//! The words of `itv sign`.
ghost use Rattle.std.specs.Prelude.{IfErr, IfOk};
ghost use Rattle.it_words.specs.Values.{IsSign, IsSignBy};
ghost use Rattle.it_words.specs.inside.Unfit.{FitsNone};

use super::values::{Values, ValuesFault};
use it_base::text::Text;

/// The values of `itv sign`.
#[derive(Drop)]
pub struct SignWords {
    /// The path of the body's file.
    pub body: Text,
    /// What makes the signature.
    pub by: SignBy,
    /// The id of the key that signs.
    pub key: Text,
    /// The type of the body.
    pub kind: Text,
    /// The path of the envelope's file that the signature is added to, where there is one.
    pub onto: Option<Text>,
}

/// What makes a signature.
#[derive(Drop)]
pub enum SignBy {
    /// The secret that the ring in the file at this path has for the id.
    Ring(Text),
    /// Somebody else, who made it already.
    Made(MadePaths),
}

/// The files of a signature that was made elsewhere.
#[derive(Drop)]
pub struct MadePaths {
    /// The path of the signature's file, which holds its bytes alone.
    pub signature: Text,
    /// The path of the file of public keys, one of which it must be valid for.
    pub keys: Text,
}

/// The command's values, or `Unfit` where one is missing.
pub(super) fn read(values: &Values<'_, '_>) -> Result<SignWords, ValuesFault>
    ensures found { IfOk result (IsSign values.now) }
    ensures unfit { IfErr result (FitsNone (IsSign values.now)) }
{
    Ok(SignWords {
        body: values.needed("body")?,
        by: sign_by(values)?,
        key: values.needed("key")?,
        kind: values.needed("type")?,
        onto: values.optional("onto")?,
    })
}

/// What makes the signature, or `Unfit` where neither a ring nor a signature with keys is given, or
/// one beside the other.
fn sign_by(values: &Values<'_, '_>) -> Result<SignBy, ValuesFault>
    ensures found { IfOk result (IsSignBy values.now) }
    ensures unfit { IfErr result (FitsNone (IsSignBy values.now)) }
{
    match values.optional("ring")? {
        Some(ring) => {
            values.absent("signature")?;
            values.absent("keys")?;
            Ok(SignBy::Ring(ring))
        }
        None => Ok(SignBy::Made(MadePaths {
            signature: values.needed("signature")?,
            keys: values.needed("keys")?,
        })),
    }
}
