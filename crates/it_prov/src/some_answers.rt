//! The answers for those of some builders that can have signed an envelope.
ghost use Rattle.std.specs.Prelude.{◌≡◌, ◌==◌, ◌||◌, ◌<◌, ℕ, IfOk, IsSome, OnOk, Some, length};
ghost use Rattle.std.specs.Prelude.{false, if◌then◌else◌};
ghost use Rattle.std.specs.BTreeMap.{get};
ghost use Rattle.std.specs.Ordering.{nat_cmp};
ghost use Rattle.it_prov.specs.inside.Possible.{AreUnderIds};
ghost use Rattle.it_prov.specs.inside.Shared.{AreAnswersFor, HoldAnswers, answer_at};

use crate::answers::{Answer, answer_for};
use crate::builders_by_id::BuildersById;
use it_docs::policy::Builder;
use it_dsse::checks::Checks;
use it_dsse::envelope::Envelope;
use it_dsse::meter::Meter;
use std::alloc::{AllocError, Global};
use std::collections::BTreeMap;

/// The answers for those of some builders that can have signed an envelope. The others did not, for
/// which nothing is asked.
#[derive(Drop)]
pub(crate) struct SomeAnswers {
    /// The answers, by the places of the builders.
    pub(crate) by_place: BTreeMap<usize, Answer>,
    /// Whether one of them says that the builder signed.
    pub(crate) some_signed: bool,
}

impl SomeAnswers {
    /// Asks the `checks` which builders signed the envelope.
    pub(crate) fn of<C: Checks>(
        alloc: Global,
        envelope: &Envelope,
        asked: &BuildersById,
        checks: &C,
    ) -> Result<SomeAnswers, AllocError>
        requires { AreUnderIds asked.now.builders.items asked.now.ids }
        ensures { IfOk result
            (AreAnswersFor (C.panel checks.now) envelope.now asked.now.builders.items) }
    {
        let mut answers = SomeAnswers {
            by_place: BTreeMap::new(alloc),
            some_signed: false,
        };
        let places = asked.possible_signers(alloc, envelope)?;
        for place in places.as_slice() {
            answers.ask(asked.builders.as_slice(), *place, envelope, checks)?;
        }
        Ok(answers)
    }

    /// The answer for the builder at a place. Takes no memory.
    pub(crate) fn at(&self, place: usize) -> Answer
        ensures { result ≡ answer_at self.now place }
    {
        match self.by_place.get(&place) {
            Some(answer) => *answer,
            None => Answer {
                signed: false,
                asked: Meter { asked: 0 },
            },
        }
    }

    /// Asks whether the builder at a place signed, unless that was asked.
    fn ask<C: Checks>(
        &mut self,
        builders: &[&Builder],
        place: usize,
        envelope: &Envelope,
        checks: &C,
    ) -> Result<(), AllocError>
        requires { HoldAnswers (C.panel checks.now) envelope.now builders.now self.old }
        ensures hold { OnOk result
            (HoldAnswers (C.panel checks.now) envelope.now builders.now self.new) }
        ensures has { OnOk result (place < length builders.now
            → IsSome (get nat_cmp self.new.by_place place)) }
        ensures kept { OnOk result ((other : ℕ) → IsSome (get nat_cmp self.old.by_place other)
            → IsSome (get nat_cmp self.new.by_place other)) }
    {
        let Some(builder) = builders.get(place) else {
            return Ok(());
        };
        if self.by_place.contains_key(&place) {
            return Ok(());
        }
        let answer = answer_for(*builder, envelope, checks)?;
        self.put(place, answer)?;
        Ok(())
    }

    /// Puts the answer for the builder at a place there.
    fn put(&mut self, place: usize, answer: Answer) -> Result<(), AllocError>
        ensures at { OnOk result ((other : ℕ) → get nat_cmp self.new.by_place other
            ≡ (if place == other then Some answer else get nat_cmp self.old.by_place other)) }
        ensures signed { OnOk result
            (self.new.some_signed ≡ (self.old.some_signed || answer.signed)) }
    {
        self.by_place.insert(place, answer)?;
        self.some_signed = self.some_signed || answer.signed;
        Ok(())
    }
}
