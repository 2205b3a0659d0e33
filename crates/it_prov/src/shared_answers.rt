//! The answers for the builders of expectations, one of which serves all that have the same keys.
ghost use Rattle.std.specs.Prelude.{◌≡◌, ◌↔◌, ◌<◌, Any, IfOk, IsTrue, Some, length, slice_get};
ghost use Rattle.it_prov.specs.Answered.{AreAllAnswers};

use crate::answers::Answer;
use crate::asked_builders::AskedBuilders;
use crate::some_answers::SomeAnswers;
use it_base::sequence::Sequence;
use it_dsse::checks::Checks;
use it_dsse::envelope::Envelope;
use std::alloc::{AllocError, Global};
use std::marker::Model;

/// The answers for the builders of each expectation. Builders with the same keys share one. A
/// contract sees, for each expectation, the list of the answers for its builders.
#[derive(Drop)]
pub struct SharedAnswers<'a> {
    some: SomeAnswers,
    /// For each builder of each expectation, the place of its answer.
    places: &'a [Sequence<usize>],
}

impl<'a> Model for SharedAnswers<'a> {
    ghost use Rattle.std.specs.Prelude.{List, map};
    ghost use Rattle.it_prov.specs.declared.answers.Answer.{Answer};

    ghost Value = { List (List Answer) };

    ghost use Rattle.it_prov.specs.inside.Shared.{TellsSigned, answers_at};

    ghost view = { λ it. map (answers_at it.some) it.places.now };

    ghost invariant = { λ it. TellsSigned it.some it.places.now };
}

impl<'a> SharedAnswers<'a> {
    /// Asks the `checks` which builders signed the envelope.
    ///
    /// # Errors
    ///
    /// `AllocError` where memory was refused.
    pub(crate) fn of<C: Checks>(
        alloc: Global,
        envelope: &Envelope,
        asked: &'a AskedBuilders,
        checks: &C,
    ) -> Result<SharedAnswers<'a>, AllocError>
        ensures { IfOk result
            (AreAllAnswers (C.panel checks.now) envelope.now asked.now) }
    {
        let some = SomeAnswers::of(alloc, envelope, &asked.distinct, checks)?;
        Ok(SharedAnswers {
            some,
            places: asked.places.as_slice(),
        })
    }

    /// Whether some answer says that the builder signed.
    pub(crate) fn some_signed(&self) -> bool
        ensures { IsTrue result ↔ Any (λ of_one. Any (λ answer. IsTrue answer.signed) of_one)
            self.now }
    {
        self.some.some_signed
    }

    /// The answers for the builders of the expectation at a place.
    pub(crate) fn for_builders(&self, place: usize) -> BuilderAnswers<'_>
        requires { place < length self.now }
        ensures { slice_get self.now place ≡ Some result }
    {
        BuilderAnswers {
            some: &self.some,
            places: self.places[place].as_slice(),
        }
    }
}

/// The answers for the builders of one expectation. A contract sees their list.
#[derive(Drop)]
pub(crate) struct BuilderAnswers<'a> {
    some: &'a SomeAnswers,
    /// For each builder, the place of its answer.
    places: &'a [usize],
}

impl<'a> Model for BuilderAnswers<'a> {
    ghost use Rattle.std.specs.Prelude.{List};
    ghost use Rattle.it_prov.specs.declared.answers.Answer.{Answer};

    ghost Value = { List Answer };

    ghost use Rattle.it_prov.specs.inside.Shared.{answers_at};

    ghost view = { λ it. answers_at it.some.now it.places.now };
}

impl<'a> BuilderAnswers<'a> {
    /// The answer for the builder at an index.
    pub(crate) fn for_builder(&self, index: usize) -> Answer
        requires { index < length self.now }
        ensures { slice_get self.now index ≡ Some result }
    {
        self.some.at(self.places[index])
    }
}
