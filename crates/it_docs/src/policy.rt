//! Policies: who owns a layout, and what is expected of a delivery (this profile's choice).
ghost use Rattle.std.specs.Prelude.{◌≡◌, ◌≢◌, IfOk};
ghost use Rattle.std.specs.FinMap.{empty};
ghost use Rattle.it_borrowed.specs.Tree.{as_data};
ghost use Rattle.it_base.specs.Finds.{Finds};
ghost use Rattle.it_base.specs.Parts.{IsPart};
ghost use Rattle.it_base.specs.Text.{IsText};
ghost use Rattle.it_docs.specs.Level.{IsLevel, IsLevelPart};

use crate::rule::Rule;
use it_base::sequence::Sequence;
use it_base::table::Table;
use it_base::text::Text;
use it_base::tree::Members;
use it_borrowed::document::member;
use it_borrowed::list::list_or_empty;
use it_borrowed::parts::{FromBorrowed, part, part_or};
use it_borrowed::text::text_of;
use it_borrowed::whole::unsigned_of;
use it_dsse::key_object::KeyObject;
use it_glob::Pattern;
use json::Value;
use std::alloc::{AllocError, Global};

/// A builder whose provenance is trusted.
#[derive(Drop)]
pub struct Builder {
    /// The builder's id, as its provenance names it.
    pub id: Text,
    /// The builder's keys by their ids.
    pub keys: Table<KeyObject>,
    /// The SLSA build level, 0 to 3, that the policy trusts the builder to reach.
    pub level: u8,
}

/// What is expected of the provenance of some delivered files.
#[derive(Drop)]
pub struct Expectation {
    /// The files that it applies to.
    pub files: Pattern,
    /// The builders that may have built them.
    pub builders: Sequence<Builder>,
    /// The kind of build.
    pub build_type: Text,
    /// The parameters that the build must have had.
    pub parameters: Members,
    /// The names of further parameters that it may have had.
    pub ignore: Sequence<Text>,
    /// The lowest SLSA build level, 0 to 3, that a builder may have.
    pub level: u8,
}

/// A policy.
#[derive(Drop)]
pub struct Policy {
    /// The keys that must all have signed the layout, by their ids. There is at least one.
    pub owners: Table<KeyObject>,
    /// The rules on what is delivered.
    pub deliver: Sequence<Rule>,
    /// The expectations, in order.
    pub expectations: Sequence<Expectation>,
    /// There is an owner.
    pub ghost some_owner: { owners ≢ empty },
}

impl FromBorrowed for Builder {
    ghost use Rattle.it_docs.specs.Policy.{IsBuilderOf};

    ghost is_of = { IsBuilderOf };

    fn from_borrowed(alloc: Global, value: &Value<'_>) -> Result<Option<Builder>, AllocError> {
        let Some(id) = part::<Text>(alloc, value, "id")? else {
            return Ok(None);
        };
        let Some(keys) = part::<Table<KeyObject>>(alloc, value, "keys")? else {
            return Ok(None);
        };
        let Some(level) = level(value) else {
            return Ok(None);
        };
        Ok(Some(Builder { id, keys, level }))
    }
}

impl FromBorrowed for Expectation {
    ghost use Rattle.it_docs.specs.Policy.{IsExpectation};

    ghost is_of = { IsExpectation };

    fn from_borrowed(alloc: Global, value: &Value<'_>) -> Result<Option<Expectation>, AllocError> {
        let Some(files) = pattern_at(alloc, value, "files")? else {
            return Ok(None);
        };
        let Some(builders) = list_or_empty::<Builder>(alloc, value, "builders")? else {
            return Ok(None);
        };
        let Some(build_type) = part::<Text>(alloc, value, "buildType")? else {
            return Ok(None);
        };
        let no_parameters = Members::new(alloc);
        let Some(parameters) = part_or(alloc, value, "parameters", no_parameters)? else {
            return Ok(None);
        };
        let Some(ignore) = list_or_empty::<Text>(alloc, value, "ignore")? else {
            return Ok(None);
        };
        let Some(level) = level(value) else {
            return Ok(None);
        };
        Ok(Some(Expectation {
            files,
            builders,
            build_type,
            parameters,
            ignore,
            level,
        }))
    }
}

/// The pattern in the member of this name, or `None` where it is missing or not a text.
fn pattern_at(alloc: Global, value: &Value<'_>, name: &str) -> Result<Option<Pattern>, AllocError>
    ensures { IfOk result (Finds (IsPart IsText name.now (as_data value.now))) }
{
    match member(value, name) {
        None => Ok(None),
        Some(found) => pattern_of(alloc, found),
    }
}

fn pattern_of(alloc: Global, value: &Value<'_>) -> Result<Option<Pattern>, AllocError>
    ensures { IfOk result (Finds (IsText (as_data value.now))) }
{
    match text_of(value) {
        None => Ok(None),
        Some(text) => Ok(Some(Pattern::read(alloc, text)?)),
    }
}

/// The level of a builder or an expectation: 0 where it is missing, and `None` where it is not a
/// whole number from 0 to 3.
fn level(value: &Value<'_>) -> Option<u8>
    ensures { Finds (IsLevelPart (as_data value.now)) result }
{
    match member(value, "level") {
        None => Some(0),
        Some(found) => whole_level(found),
    }
}

fn whole_level(value: &Value<'_>) -> Option<u8>
    ensures { Finds (IsLevel (as_data value.now)) result }
{
    let level = unsigned_of(value)?;
    if level > 3 { None } else { Some(level as u8) }
}
