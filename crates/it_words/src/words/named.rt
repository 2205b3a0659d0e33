//! The command that the parser found.
ghost use Rattle.std.specs.Prelude.{IfErr, IfOk, codes};
ghost use Rattle.clap.specs.Words.{subcommand_rows_of};
ghost use Rattle.it_words.specs.Words.{IsCommand, NamesCommand};
ghost use Rattle.it_words.specs.inside.Unfit.{FitsNone};

use super::values::{Values, ValuesFault};
use super::{
    Words, check_words, digest_words, key_words, link_words, match_words, pae_words, payload_words,
    sign_words, signed_words, statement_words, verify_words,
};
use clap::ArgMatches;
use std::alloc::Global;

/// The command that was found with its values, or `Unfit` where it is none or a value is missing.
pub(super) fn named(alloc: Global, matches: &ArgMatches<'_>) -> Result<Words, ValuesFault>
    ensures found { IfOk result (NamesCommand (subcommand_rows_of matches.now)) }
    ensures unfit { IfErr result (FitsNone (NamesCommand (subcommand_rows_of matches.now))) }
{
    match matches.subcommand() {
        Some((name, found)) => command(name, &Values::new(alloc, found)),
        None => Err(ValuesFault::Unfit),
    }
}

/// The command of this name with its values.
fn command(name: &str, values: &Values<'_, '_>) -> Result<Words, ValuesFault>
    ensures found { IfOk result (IsCommand (name.now, values.now)) }
    ensures unfit { IfErr result (FitsNone (IsCommand (name.now, values.now))) }
{
    match name {
        "signed" => signed(values),
        "match" => matching(values),
        "pae" => pae(values),
        "sign" => sign(values),
        "digest" => digest(values),
        "link" => link(values),
        "statement" => statement(values),
        "payload" => payload(values),
        "key" => key(values),
        "check" => check(values),
        "verify" => verify(values),
        _ => Err(ValuesFault::Unfit),
    }
}

fn signed(values: &Values<'_, '_>) -> Result<Words, ValuesFault>
    ensures found { IfOk result (IsCommand (codes "signed", values.now)) }
    ensures unfit { IfErr result (FitsNone (IsCommand (codes "signed", values.now))) }
{
    Ok(Words::Signed(signed_words::read(values)?))
}

fn matching(values: &Values<'_, '_>) -> Result<Words, ValuesFault>
    ensures found { IfOk result (IsCommand (codes "match", values.now)) }
    ensures unfit { IfErr result (FitsNone (IsCommand (codes "match", values.now))) }
{
    Ok(Words::Match(match_words::read(values)?))
}

fn pae(values: &Values<'_, '_>) -> Result<Words, ValuesFault>
    ensures found { IfOk result (IsCommand (codes "pae", values.now)) }
    ensures unfit { IfErr result (FitsNone (IsCommand (codes "pae", values.now))) }
{
    Ok(Words::Pae(pae_words::read(values)?))
}

fn sign(values: &Values<'_, '_>) -> Result<Words, ValuesFault>
    ensures found { IfOk result (IsCommand (codes "sign", values.now)) }
    ensures unfit { IfErr result (FitsNone (IsCommand (codes "sign", values.now))) }
{
    Ok(Words::Sign(sign_words::read(values)?))
}

fn digest(values: &Values<'_, '_>) -> Result<Words, ValuesFault>
    ensures found { IfOk result (IsCommand (codes "digest", values.now)) }
    ensures unfit { IfErr result (FitsNone (IsCommand (codes "digest", values.now))) }
{
    Ok(Words::Digest(digest_words::read(values)?))
}

fn link(values: &Values<'_, '_>) -> Result<Words, ValuesFault>
    ensures found { IfOk result (IsCommand (codes "link", values.now)) }
    ensures unfit { IfErr result (FitsNone (IsCommand (codes "link", values.now))) }
{
    Ok(Words::Link(link_words::read(values)?))
}

fn statement(values: &Values<'_, '_>) -> Result<Words, ValuesFault>
    ensures found { IfOk result (IsCommand (codes "statement", values.now)) }
    ensures unfit { IfErr result (FitsNone (IsCommand (codes "statement", values.now))) }
{
    Ok(Words::Statement(statement_words::read(values)?))
}

fn payload(values: &Values<'_, '_>) -> Result<Words, ValuesFault>
    ensures found { IfOk result (IsCommand (codes "payload", values.now)) }
    ensures unfit { IfErr result (FitsNone (IsCommand (codes "payload", values.now))) }
{
    Ok(Words::Payload(payload_words::read(values)?))
}

fn key(values: &Values<'_, '_>) -> Result<Words, ValuesFault>
    ensures found { IfOk result (IsCommand (codes "key", values.now)) }
    ensures unfit { IfErr result (FitsNone (IsCommand (codes "key", values.now))) }
{
    Ok(Words::Key(key_words::read(values)?))
}

fn check(values: &Values<'_, '_>) -> Result<Words, ValuesFault>
    ensures found { IfOk result (IsCommand (codes "check", values.now)) }
    ensures unfit { IfErr result (FitsNone (IsCommand (codes "check", values.now))) }
{
    Ok(Words::Check(check_words::read(values)?))
}

fn verify(values: &Values<'_, '_>) -> Result<Words, ValuesFault>
    ensures found { IfOk result (IsCommand (codes "verify", values.now)) }
    ensures unfit { IfErr result (FitsNone (IsCommand (codes "verify", values.now))) }
{
    Ok(Words::Verify(verify_words::read(values)?))
}
