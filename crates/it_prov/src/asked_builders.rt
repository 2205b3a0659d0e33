//! The builders that are asked whether they signed: one of all that have the same keys.
ghost use Rattle.std.specs.Prelude.{◌≡◌, [], IfOk, IfSome};
ghost use Rattle.it_prov.specs.inside.Distinct.{ArePlaced, HasSameAt, IsPlaced};

use crate::builders_by_id::BuildersById;
use crate::same_keys::{are_same, text_of};
use it_base::sequence::Sequence;
use it_docs::policy::{Builder, Expectation};
use std::alloc::{AllocError, Global};
use std::collections::BTreeMap;
use std::marker::Model;

/// Expectations, and which of their builders are asked whether they signed an envelope: one of all
/// that have the same keys. A contract sees the list of the expectations.
#[derive(Drop)]
pub struct AskedBuilders<'a> {
    expectations: &'a [Expectation],
    /// The builders that are asked.
    pub(crate) distinct: BuildersById<'a>,
    /// For each builder of each expectation, the place of the one that is asked for it.
    pub(crate) places: Vec<Sequence<usize>>,
}

impl<'a> Model for AskedBuilders<'a> {
    ghost use Rattle.std.specs.Prelude.{List};
    ghost use Rattle.std.specs.Coded.{coded_list};
    ghost use Rattle.it_docs.specs.contracts.policy.Expectation as expectation;
    ghost use Rattle.it_docs.specs.declared.policy.Expectation.{Expectation};

    ghost Value = { List Expectation };

    ghost coded = { coded_list expectation.the_row.coded };

    ghost use Rattle.it_prov.specs.inside.Possible.{AreAskedById};

    ghost view = { λ it. it.expectations.now };

    ghost invariant = { λ it. AreAskedById it.expectations.now it.distinct it.places.items };
}

impl<'a> AskedBuilders<'a> {
    /// Finds out which builders of the expectations have the same keys, with n log n comparisons of
    /// texts for n builders.
    ///
    /// # Errors
    ///
    /// `AllocError` where memory was refused.
    pub fn of(
        alloc: Global,
        expectations: &'a [Expectation],
    ) -> Result<AskedBuilders<'a>, AllocError>
        ensures { IfOk result (λ asked. asked ≡ expectations.now) }
    {
        let mut distinct = Distinct::new(alloc);
        let mut places = Vec::with_capacity(alloc, expectations.len())?;
        for expectation in expectations {
            let of_one = distinct.places_for(alloc, expectation.builders.as_slice())?;
            places.push(Sequence::from(of_one))?;
        }
        let Distinct { builders, .. } = distinct;
        Ok(AskedBuilders {
            expectations,
            distinct: BuildersById::of(alloc, builders)?,
            places,
        })
    }

    /// The expectations.
    pub(crate) fn expectations(&self) -> &[Expectation]
        ensures { result.now ≡ self.now }
    {
        self.expectations
    }
}

/// Builders, of which none was found to have the same keys as another.
#[derive(Drop)]
struct Distinct<'a> {
    builders: Vec<&'a Builder>,
    /// The places of the builders, by texts of their keys.
    by_text: BTreeMap<String, usize>,
}

impl<'a> Distinct<'a> {
    fn new(alloc: Global) -> Distinct<'a>
        ensures { result.builders.items ≡ [] }
    {
        Distinct {
            builders: Vec::new(alloc),
            by_text: BTreeMap::new(alloc),
        }
    }

    /// The places of builders with the same keys as these, which are added where there are none.
    fn places_for(
        &mut self,
        alloc: Global,
        builders: &'a [Builder],
    ) -> Result<Vec<usize>, AllocError>
        ensures { IfOk result (λ places.
            ArePlaced self.old.builders.items self.new.builders.items builders.now places.items) }
    {
        let mut places = Vec::with_capacity(alloc, builders.len())?;
        for builder in builders {
            places.push(self.place_for(alloc, builder)?)?;
        }
        Ok(places)
    }

    /// The place of a builder with the same keys as this one, which is added where there is none.
    fn place_for(&mut self, alloc: Global, builder: &'a Builder) -> Result<usize, AllocError>
        ensures { IfOk result
            (IsPlaced self.old.builders.items self.new.builders.items builder.now) }
    {
        let text = text_of(alloc, &builder.keys)?;
        if let Some(place) = self.known(text.as_str(), builder) {
            return Ok(place);
        }
        let place = self.builders.len();
        self.builders.push(builder)?;
        self.by_text.insert(text, place)?;
        Ok(place)
    }

    /// The place of a builder with the same keys as this one, which have this text.
    fn known(&self, text: &str, builder: &Builder) -> Option<usize>
        ensures { IfSome result (HasSameAt self.now.builders.items builder.now) }
    {
        let place = *self.by_text.get(text)?;
        let other = self.builders.get(place)?;
        if are_same(&other.keys, &builder.keys) {
            Some(place)
        } else {
            None
        }
    }
}
