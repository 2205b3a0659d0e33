//! What is said of words that do not parse.
ghost use Rattle.std.specs.Prelude.{◌≡◌};
ghost use Rattle.clap.specs.Words.{kind_of};

use super::dashes::{asks_help, gives, gives_value, has_dashed_value};
use super::usage::{Usage, nearest_to, of_all, of_one, usage_of};
use super::{WordsFault, key_words, signed_words, verify_words};
use clap::error::ErrorKind;
use clap::{ArgMatches, Error};
use std::alloc::{AllocError, Global};

/// What is said where a value begins with a dash.
const HINT: &str =
    "\n\nA value that begins with - stands after =, as in --option=-value. After --\n\
    words are taken as they are.";

/// What is said where `itv verify` is given a file beside `--public-keys`.
const KEYS_HINT: &str = "; --public-keys takes no value: the keys come from policy and layout";

/// The fault of words that the parser refused.
pub(super) fn fault_of(alloc: Global, words: &[String], error: &Error) -> WordsFault
    ensures { kind_of error.now ≡ ErrorKind.OutOfMemory → result ≡ WordsFault.OutOfMemory }
{
    if error.kind() == ErrorKind::OutOfMemory {
        return WordsFault::OutOfMemory;
    }
    unread(note(alloc, words, error))
}

/// The fault of words that parse and do not fit together.
pub(super) fn unfit(alloc: Global, words: &[String], matches: &ArgMatches<'_>) -> WordsFault {
    let ([_, _, values @ ..], Some((command, found))) = (words, matches.subcommand()) else {
        return unread(of_all(alloc, "no command is given"));
    };
    match usage_of(command) {
        Some(usage) => unread(of_one(alloc, misfit(usage.name, values, found), usage)),
        None => unread(note_on_command(alloc, command)),
    }
}

/// What does not fit together in the values of a command, as words and as the parser found them.
fn misfit(command: &str, values: &[String], found: &ArgMatches<'_>) -> &'static str {
    match (command, gives(values, "--ring")) {
        ("check", _) => "neither '--policy <F>' nor '--layout <F>' is given",
        ("verify", _) if !verify_words::has_list(found) => {
            "neither '--sums <F>' nor '--sums512 <F>' is given"
        }
        ("verify", has_ring) => match misfit_of_summary(values) {
            Some(misfit) => misfit,
            None if has_ring => "the option '--ring <F>' is given more than 8 times",
            None => "none of '--ring <F>', '--public-keys' and '--trusted-root <F>' is given",
        },
        ("signed", _) => signed_words::misfit(found),
        ("sign", true) =>
            "the option '--ring <F>' is given beside '--signature <SIG>' or '--keys <F>'",
        ("sign", false) =>
            "neither '--ring <F>' nor '--signature <SIG>' with '--keys <F>' is given",
        _ => key_words::misfit(found),
    }
}

/// What does not fit together in the words of a summary, where they do not.
fn misfit_of_summary(values: &[String]) -> Option<&'static str> {
    let has_verifier = gives(values, "--verifier");
    let has_resource = gives(values, "--resource");
    match (gives(values, "--summary"), has_verifier, has_resource) {
        (true, false, _) => Some("the option '--summary' is given without '--verifier <ID>'"),
        (true, true, false) => Some("the option '--summary' is given without '--resource <URI>'"),
        (true, true, true) if gives(values, "--json") => {
            Some("the options '--summary' and '--json [<N>]' are both given")
        }
        (true, true, true) => None,
        (false, true, _) => Some("the option '--verifier <ID>' is given without '--summary'"),
        (false, false, true) => Some("the option '--resource <URI>' is given without '--summary'"),
        (false, false, false) => None,
    }
}

fn unread(note: Result<String, AllocError>) -> WordsFault {
    match note {
        Ok(note) => WordsFault::Unread(note),
        Err(AllocError) => WordsFault::OutOfMemory,
    }
}

/// What was wrong and, where there is a command, its usage, else those of all.
fn note(alloc: Global, words: &[String], error: &Error) -> Result<String, AllocError> {
    match words {
        [_, command, values @ ..] => match usage_of(command.as_str()) {
            Some(usage) => note_on_values(alloc, usage, values, error),
            None => note_on_command(alloc, command.as_str()),
        },
        _ => of_all(alloc, "no command is given"),
    }
}

/// What is said of a first word that names no command.
fn note_on_command(alloc: Global, word: &str) -> Result<String, AllocError> {
    match word {
        "--help" | "-h" | "help" => of_all(alloc, "help is asked for, and no command is run"),
        "--version" => of_all(alloc, "the version is asked for, and no command is run"),
        _ => match nearest_to(word) {
            Some(usage) => of_none(
                alloc,
                word,
                format!(in alloc; "; is {} meant?", usage.name)?,
            ),
            None => of_none(alloc, word, String::new(alloc)),
        },
    }
}

/// What is said of a word that is no command, with what may be meant.
fn of_none(alloc: Global, word: &str, meant: String) -> Result<String, AllocError> {
    format!(in alloc; "{word:?} is no command{meant}\n\nitv --help lists the commands")
}

/// What is said of words that a command does not take.
fn note_on_values(
    alloc: Global,
    usage: &Usage,
    values: &[String],
    error: &Error,
) -> Result<String, AllocError> {
    if asks_help(values) {
        let name = usage.name;
        let wrong = format!(in alloc; "help is asked for, and {name} is not run")?;
        return of_one(alloc, wrong.as_str(), usage);
    }
    let mut wrong = sentence(alloc, error)?;
    if takes_for_keys(usage, values, error.kind()) {
        wrong.push_str(KEYS_HINT)?;
    }
    let mut note = of_one(alloc, wrong.as_str(), usage)?;
    if has_dashed_value(values, usage.line) {
        note.push_str(HINT)?;
    }
    Ok(note)
}

/// Whether a word that `itv verify` does not take may be meant as the file of its public keys.
fn takes_for_keys(usage: &Usage, values: &[String], kind: ErrorKind) -> bool {
    if usage.name != "verify" {
        return false;
    }
    match kind {
        ErrorKind::UnknownArgument => {
            gives(values, "--public-keys") && !has_dashed_value(values, usage.line)
        }
        ErrorKind::TooManyValues => gives_value(values, "--public-keys"),
        _ => false,
    }
}

/// The parser's own sentence, on one line.
fn sentence(alloc: Global, error: &Error) -> Result<String, AllocError> {
    let text = format!(in alloc; "{error}")?;
    let message = text.as_str();
    let message = message.strip_prefix("error: ").unwrap_or(message);
    let first = match message.split_once("\n\n") {
        Some((first, _)) => first,
        None => message,
    };
    first.trim_end().replace(alloc, "\n ", "")
}
