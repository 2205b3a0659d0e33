//! The values of a command, as the parser found them.
ghost use Rattle.std.specs.Prelude.{◌≡◌, ◌≢◌, List, Some, None, IfErr, IfOk, codes, map, nat_lt};
ghost use Rattle.std.specs.Prelude.{◌↔◌, IsTrue, is_some, option_map, unwrap_or, []};
ghost use Rattle.clap.specs.Words.{Row, found_of, one_of};
ghost use Rattle.clap.specs.Walk.{all_of, count_of, first_of, rows_of};
ghost use Rattle.it_words.specs.Values.{GivesNumber, HasEither, IsDepth, IsForm};
ghost use Rattle.it_words.specs.inside.Unfit.{FitsNone};
ghost use Rattle.it_words.specs.declared.words.values.ValuesFault.TheVariants.{OutOfMemory};

use super::form::Form;
use clap::ArgMatches;
use it_base::sequence::Sequence;
use it_base::text::Text;
use std::alloc::{AllocError, Global};
use std::marker::Model;

/// Why the values of a command are not read.
#[derive(Clone, Copy)]
pub(crate) enum ValuesFault {
    /// One is missing, or they do not fit together.
    Unfit,
    /// Memory was refused.
    OutOfMemory,
}

impl From<AllocError> for ValuesFault {
    ghost from_gives = { λ _ fault. fault ≡ OutOfMemory };

    fn from(_error: AllocError) -> ValuesFault {
        ValuesFault::OutOfMemory
    }
}

/// The values of a command. A contract sees the rows in which the parser found them.
#[derive(Drop)]
pub(crate) struct Values<'v, 'a> {
    alloc: Global,
    found: &'v ArgMatches<'a>,
}

impl<'v, 'a> Model for Values<'v, 'a> {
    ghost Value = { List Row };

    ghost view = { λ values. rows_of (found_of values.found.now) };
}

impl<'v, 'a> Values<'v, 'a> {
    /// The values that the parser found. Texts are copied into memory from `alloc`.
    pub(super) fn new(alloc: Global, found: &'v ArgMatches<'a>) -> Values<'v, 'a>
        ensures { result ≡ rows_of (found_of found.now) }
    {
        Values { alloc, found }
    }

    /// The value of an argument, or `Unfit` where it was not given.
    pub(super) fn needed(&self, name: &str) -> Result<Text, ValuesFault>
        ensures found { IfOk result (λ text. first_of name.now self.now ≡ Some text) }
        ensures unfit { IfErr result (λ fault. fault ≡ ValuesFault.Unfit
            → first_of name.now self.now ≡ None) }
    {
        match self.optional(name)? {
            Some(text) => Ok(text),
            None => Err(ValuesFault::Unfit),
        }
    }

    /// The value of an argument, where it was given.
    pub(super) fn optional(&self, name: &str) -> Result<Option<Text>, AllocError>
        ensures { IfOk result (λ text. first_of name.now self.now ≡ text) }
    {
        match self.value(name) {
            Some(text) => Ok(Some(Text::copy(self.alloc, text)?)),
            None => Ok(None),
        }
    }

    /// Refuses a value, as `Unfit` where it was given.
    pub(super) fn absent(&self, name: &str) -> Result<(), ValuesFault>
        ensures found { IfOk result (λ _. first_of name.now self.now ≡ None) }
        ensures unfit { IfErr result (λ _. first_of name.now self.now ≢ None) }
    {
        match self.value(name) {
            Some(_) => Err(ValuesFault::Unfit),
            None => Ok(()),
        }
    }

    /// Whether an option without a value was given.
    pub(super) fn is_given(&self, name: &str) -> bool
        ensures { result ≡ nat_lt 0 (count_of name.now self.now) }
    {
        0 < self.found.get_count(name)
    }

    /// Whether words were given in a place.
    pub(super) fn has_words(&self, name: &str) -> bool
        ensures { result ≡ is_some (all_of name.now self.now) }
    {
        self.given(name).is_some()
    }

    /// All values of an argument in the order of the words, or `Unfit` where it was not given.
    pub(super) fn all(&self, name: &str) -> Result<Sequence<Text>, ValuesFault>
        ensures found { IfOk result (λ texts. all_of name.now self.now ≡ Some texts) }
        ensures unfit { IfErr result (λ fault. fault ≡ ValuesFault.Unfit
            → all_of name.now self.now ≡ None) }
    {
        match self.given(name) {
            Some(words) => Ok(texts(self.alloc, words)?),
            None => Err(ValuesFault::Unfit),
        }
    }

    /// All values of an argument in the order of the words, of which there may be none.
    pub(super) fn any(&self, name: &str) -> Result<Sequence<Text>, AllocError>
        ensures { IfOk result (λ texts. texts ≡ unwrap_or (all_of name.now self.now) []) }
    {
        match self.given(name) {
            Some(words) => texts(self.alloc, words),
            None => Ok(Sequence::from(Vec::new(self.alloc))),
        }
    }

    /// The word that is the value of an argument, where it was given.
    fn value(&self, name: &str) -> Option<&'a str>
        ensures { option_map (λ word. word.now) result ≡ first_of name.now self.now }
    {
        self.found.get_str(name)
    }

    /// The words that are the values of an argument, in their order.
    fn given(&self, name: &str) -> Option<&'v [&'a str]>
        ensures { option_map (λ words. map (λ word. word.now) words.now) result
            ≡ all_of name.now self.now }
    {
        self.found.get_strs(name)
    }

    /// The form of the report that is asked for, or `Unfit` where it is none.
    pub(super) fn form(&self) -> Result<Form, ValuesFault>
        ensures found { IfOk result (IsForm (one_of (codes "json") self.now)) }
        ensures unfit { IfErr result (FitsNone (IsForm (one_of (codes "json") self.now))) }
    {
        match self.found.try_get_one::<u8>("json") {
            Ok(None) => Ok(Form::Lines),
            Ok(Some(number)) => {
                if number == 1 {
                    Ok(Form::Json)
                } else if number == 2 {
                    Ok(Form::Full)
                } else {
                    Err(ValuesFault::Unfit)
                }
            }
            Err(_) => Err(ValuesFault::Unfit),
        }
    }

    /// How deep sublayouts may lie, or `Unfit` where it is not said, or more than 8.
    pub(super) fn depth(&self) -> Result<u8, ValuesFault>
        ensures found { IfOk result (IsDepth (one_of (codes "depth") self.now)) }
        ensures unfit { IfErr result (FitsNone (IsDepth (one_of (codes "depth") self.now))) }
    {
        let Some(depth) = self.found.get_one::<u8>("depth") else {
            return Err(ValuesFault::Unfit);
        };
        if depth <= 8 {
            Ok(depth)
        } else {
            Err(ValuesFault::Unfit)
        }
    }

    /// How many signatures public keys may check, or `Unfit` where it is not said.
    pub(super) fn most_checks(&self) -> Result<u64, ValuesFault>
        ensures found { IfOk result (GivesNumber (one_of (codes "most-checks") self.now)) }
        ensures unfit { IfErr result
            (FitsNone (GivesNumber (one_of (codes "most-checks") self.now))) }
    {
        match self.found.get_one::<u64>("most-checks") {
            Some(most) => Ok(most),
            None => Err(ValuesFault::Unfit),
        }
    }
}

/// Whether at least one of two values is given.
pub(super) fn has_either(first: &Option<Text>, second: &Option<Text>) -> bool
    ensures { IsTrue result ↔ HasEither first.now second.now }
{
    first.is_some() || second.is_some()
}

/// The words, owned and in their order.
fn texts(alloc: Global, words: &[&str]) -> Result<Sequence<Text>, AllocError>
    ensures { IfOk result (λ texts. texts ≡ map (λ word. word.now) words.now) }
{
    let mut texts = Vec::with_capacity(alloc, words.len())?;
    for word in words {
        texts.push(Text::copy(alloc, word)?)?;
    }
    Ok(Sequence::from(texts))
}
