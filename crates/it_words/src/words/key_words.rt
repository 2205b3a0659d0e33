//! The words of `itv key`.
ghost use Rattle.std.specs.Prelude.{◌↔◌, IfErr, IfOk, IsTrue};
ghost use Rattle.it_words.specs.Values.{IsIdentity, IsKey, IsKeySource, IsOneOrUnnamed};
ghost use Rattle.it_words.specs.Values.{IsShortValue, MayBeNamed};
ghost use Rattle.it_words.specs.inside.Unfit.{FitsNone};

use super::values::{Values, ValuesFault};
use clap::ArgMatches;
use it_base::sequence::Sequence;
use it_base::text::Text;
use it_identity::is_short;

/// The values of `itv key`.
#[derive(Drop)]
pub struct KeyWords {
    /// What the key objects are made of.
    pub source: KeySource,
    /// The id of the key, where it is given; there is one file then, or an identity.
    pub name: Option<Text>,
}

/// What key objects are made of.
#[derive(Drop)]
pub enum KeySource {
    /// The files of public keys at these paths, in the order of the words; there is at least one.
    Files(Sequence<Text>),
    /// An identity, which signs Sigstore bundles.
    Identity(IdentityWords),
}

/// The two texts of an identity, each of 1 to 512 bytes.
#[derive(Drop)]
pub struct IdentityWords {
    /// Who signs: a URI, an address of mail or another name.
    pub name: Text,
    /// Who says so, such as the URL of a service that signs people or workflows in.
    pub issuer: Text,
}

/// The command's values, or `Unfit` where there is neither a file nor an identity, or both, or an
/// id for several files.
pub(super) fn read(values: &Values<'_, '_>) -> Result<KeyWords, ValuesFault>
    ensures found { IfOk result (IsKey values.now) }
    ensures unfit { IfErr result (FitsNone (IsKey values.now)) }
{
    let source = key_source(values)?;
    let name = values.optional("name")?;
    if !may_be_named(&source, &name) {
        return Err(ValuesFault::Unfit);
    }
    Ok(KeyWords { source, name })
}

/// The files or the identity, or `Unfit` where neither is given, or both.
fn key_source(values: &Values<'_, '_>) -> Result<KeySource, ValuesFault>
    ensures found { IfOk result (IsKeySource values.now) }
    ensures unfit { IfErr result (FitsNone (IsKeySource values.now)) }
{
    if values.has_words("file") {
        values.absent("identity")?;
        values.absent("issuer")?;
        return Ok(KeySource::Files(values.all("file")?));
    }
    Ok(KeySource::Identity(identity_words(values)?))
}

/// The identity, or `Unfit` where a text of it is missing, empty or too long.
fn identity_words(values: &Values<'_, '_>) -> Result<IdentityWords, ValuesFault>
    ensures found { IfOk result (IsIdentity values.now) }
    ensures unfit { IfErr result (FitsNone (IsIdentity values.now)) }
{
    Ok(IdentityWords {
        name: short_value(values, "identity")?,
        issuer: short_value(values, "issuer")?,
    })
}

/// The value of an argument, or `Unfit` where it is missing, empty or too long.
fn short_value(values: &Values<'_, '_>, name: &str) -> Result<Text, ValuesFault>
    ensures found { IfOk result (IsShortValue values.now name.now) }
    ensures unfit { IfErr result (FitsNone (IsShortValue values.now name.now)) }
{
    let value = values.needed(name)?;
    if !is_short(value.as_str().as_bytes()) {
        return Err(ValuesFault::Unfit);
    }
    Ok(value)
}

/// Whether there is no id, or one key that it is the id of.
fn may_be_named(source: &KeySource, name: &Option<Text>) -> bool
    ensures { IsTrue result ↔ MayBeNamed source.now name.now }
{
    match source {
        KeySource::Files(files) => is_one_or_unnamed(files.as_slice(), name),
        KeySource::Identity(_) => true,
    }
}

/// Whether there is no id, or one file.
fn is_one_or_unnamed(files: &[Text], name: &Option<Text>) -> bool
    ensures { IsTrue result ↔ IsOneOrUnnamed files.now name.now }
{
    match name {
        Some(_) => files.len() == 1,
        None => true,
    }
}

/// What is wrong with values that do not fit together.
pub(super) fn misfit(values: &ArgMatches<'_>) -> &'static str {
    let has_file = values.get_strs("file").is_some();
    match (values.get_str("identity"), values.get_str("issuer")) {
        (None, None) if has_file => "the option '--name <ID>' is given with more than one file",
        (None, None) => "neither a file nor '--identity <I>' with '--issuer <S>' is given",
        (Some(_), None) => "the option '--identity <I>' is given without '--issuer <S>'",
        (None, Some(_)) => "the option '--issuer <S>' is given without '--identity <I>'",
        (Some(_), Some(_)) if has_file => "the option '--identity <I>' is given beside a file",
        (Some(identity), Some(issuer)) => misfit_of_texts(identity, issuer),
    }
}

/// What is wrong with the texts of an identity.
fn misfit_of_texts(identity: &str, issuer: &str) -> &'static str {
    if identity.is_empty() {
        return "the value of '--identity <I>' is empty";
    }
    if !is_short(identity.as_bytes()) {
        return "the value of '--identity <I>' has more than 512 bytes";
    }
    if issuer.is_empty() {
        return "the value of '--issuer <S>' is empty";
    }
    "the value of '--issuer <S>' has more than 512 bytes"
}
