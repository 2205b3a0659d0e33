//! The kinds of arguments, as the parser takes them.
ghost use Rattle.std.specs.Prelude.{◌≡◌, false};
ghost use Rattle.clap.specs.Walk.{rule_of};
ghost use Rattle.it_words.specs.Arguments.{
  bare_option,
  depth_option,
  free_words,
  json_option,
  most_checks_option,
  needed_option,
  needed_word,
  needed_words,
  plain_option,
  plain_options,
};
ghost use Rattle.it_words.specs.inside.Rows.{rule_of_argument};

use super::table::Argument;
use clap::{Arg, ArgAction, value_parser};
use std::alloc::Global;

/// An argument of a command, which is not global.
pub(super) fn argument_of<'a>(alloc: Global, argument: &Argument) -> Arg<'a>
    ensures rule { rule_of result ≡ rule_of_argument argument.now }
    ensures local { result.global ≡ false }
{
    match *argument {
        Argument::NeededWord(name, shown) => needed_word(alloc, name, shown),
        Argument::NeededWords(name, shown) => needed_words(alloc, name, shown),
        Argument::FreeWords(name, shown) => free_words(alloc, name, shown),
        Argument::NeededOption(name, shown) => needed_option(alloc, name, shown),
        Argument::PlainOption(name, shown) => plain_option(alloc, name, shown),
        Argument::PlainOptions(name, shown) => plain_options(alloc, name, shown),
        Argument::BareOption(name) => bare_option(alloc, name),
        Argument::JsonForm => json_option(alloc),
        Argument::Depth => depth_option(alloc),
        Argument::MostChecks => most_checks_option(alloc),
    }
}

/// A word that has to be given, in its place.
fn needed_word<'a>(alloc: Global, name: &'a str, shown: &'a str) -> Arg<'a>
    ensures rule { rule_of result ≡ needed_word name.entry.now }
    ensures local { result.global ≡ false }
{
    Arg::new(alloc, name).value_name(shown).required(true)
}

/// Words of which at least one has to be given, in their place.
fn needed_words<'a>(alloc: Global, name: &'a str, shown: &'a str) -> Arg<'a>
    ensures rule { rule_of result ≡ needed_words name.entry.now }
    ensures local { result.global ≡ false }
{
    Arg::new(alloc, name)
        .value_name(shown)
        .required(true)
        .action(ArgAction::Append)
}

/// Words that may be left out, in their place.
fn free_words<'a>(alloc: Global, name: &'a str, shown: &'a str) -> Arg<'a>
    ensures rule { rule_of result ≡ free_words name.entry.now }
    ensures local { result.global ≡ false }
{
    Arg::new(alloc, name)
        .value_name(shown)
        .action(ArgAction::Append)
}

/// An option that may be left out, with one value.
fn plain_option<'a>(alloc: Global, name: &'a str, shown: &'a str) -> Arg<'a>
    ensures rule { rule_of result ≡ plain_option name.entry.now }
    ensures local { result.global ≡ false }
{
    Arg::new(alloc, name).long(name).value_name(shown)
}

/// An option that has to be given, with one value.
fn needed_option<'a>(alloc: Global, name: &'a str, shown: &'a str) -> Arg<'a>
    ensures rule { rule_of result ≡ needed_option name.entry.now }
    ensures local { result.global ≡ false }
{
    plain_option(alloc, name, shown).required(true)
}

/// An option that may be left out or given many times, with one value each time.
fn plain_options<'a>(alloc: Global, name: &'a str, shown: &'a str) -> Arg<'a>
    ensures rule { rule_of result ≡ plain_options name.entry.now }
    ensures local { result.global ≡ false }
{
    plain_option(alloc, name, shown).action(ArgAction::Append)
}

/// An option without a value, which may be left out or given many times.
fn bare_option<'a>(alloc: Global, name: &'a str) -> Arg<'a>
    ensures rule { rule_of result ≡ bare_option name.entry.now }
    ensures local { result.global ≡ false }
{
    Arg::new(alloc, name).long(name).action(ArgAction::Count)
}

/// The form of a report as JSON, which may be left out or given many times: 1 or 2, and 1 where the
/// option has no value.
fn json_option<'a>(alloc: Global) -> Arg<'a>
    ensures rule { rule_of result ≡ json_option }
    ensures local { result.global ≡ false }
{
    plain_options(alloc, "json", "N")
        .num_args(0..=1)
        .default_missing_value("1")
        .value_parser(value_parser!(u8).range(1..=2))
}

/// How deep sublayouts may lie: from 0 to 8, and 4 where it is not said.
fn depth_option<'a>(alloc: Global) -> Arg<'a>
    ensures rule { rule_of result ≡ depth_option }
    ensures local { result.global ≡ false }
{
    plain_option(alloc, "depth", "N")
        .value_parser(value_parser!(u8).range(0..=8))
        .default_value("4")
}

/// How many signatures public keys may check: 20,000 where it is not said.
fn most_checks_option<'a>(alloc: Global) -> Arg<'a>
    ensures rule { rule_of result ≡ most_checks_option }
    ensures local { result.global ≡ false }
{
    plain_option(alloc, "most-checks", "N")
        .value_parser(value_parser!(u64))
        .default_value("20000")
}
