//! The level with which an envelope meets an expectation in all else, by what it attests.
ghost use Rattle.std.specs.Prelude.{◌≡◌, ◌↔◌, List, Some, Any, IfSome, IsTrue, MatchOption};
ghost use Rattle.std.specs.Prelude.{slice_get};
ghost use Rattle.it_digest.specs.Compare.{Agree};
ghost use Rattle.it_digest.specs.declared.compare.DigestSet.{DigestSet};
ghost use Rattle.it_dsse.specs.Panel.{Panel};
ghost use Rattle.it_dsse.specs.declared.envelope.Envelope.{Envelope};
ghost use Rattle.it_docs.specs.declared.policy.Expectation.{Expectation};
ghost use Rattle.it_prov.specs.Held.{HoldsOrNone, IsAttested};
ghost use Rattle.it_prov.specs.inside.Judged.{HasAnswers, HasNames, HasSubject, IsExpected};
ghost use Rattle.it_prov.specs.inside.Judged.{IsReached, SaysExpected};

use crate::attestations::Attestation;
use crate::builders::level_of_builders;
use crate::parameters::parameters_meet;
use it_digest::compare::{Compare, DigestSet};
use it_docs::policy::Expectation;
use it_docs::statement::{Provenance, Statement};
use it_dsse::meter::Meter;
use std::collections::BTreeSet;

/// The expectation that envelopes are to meet.
#[derive(Drop)]
pub(crate) struct Sought<'a, 'n> {
    /// The expectation.
    pub(crate) expectation: &'a Expectation,
    /// Its place among the expectations whose builders were asked about.
    pub(crate) place: usize,
    /// The parameter names that it allows to be ignored.
    pub(crate) ignored: &'a BTreeSet<&'n str>,
}

/// The level of a builder with which an envelope with a subject that agrees with the digests meets
/// the expectation in all but the level, by what it attests: one that is high enough, otherwise the
/// greatest.
pub(crate) fn level_reached(
    sought: &Sought,
    held: &Option<Attestation>,
    meter: &mut Meter,
) -> Option<u8>
    requires names { HasNames sought.now.expectation.now.ignore sought.now.ignored.now }
    requires answers { IfSome held.now
        (HasAnswers sought.now.place sought.now.expectation.now.builders) }
    ensures { (panel : Panel) (expectations : List Expectation) (envelope : Envelope)
        → slice_get expectations sought.now.place ≡ Some sought.now.expectation.now
        → HoldsOrNone panel expectations envelope held.now
        → (digests : DigestSet) → IfSome held.now (HasSubject digests)
        → IsReached panel sought.now.expectation.now digests envelope meter.old meter.new result }
{
    match held {
        Some(attestation) => level_of_statement(sought, attestation, meter),
        None => None,
    }
}

/// `level_reached` for a Statement with a subject that has the digests.
fn level_of_statement(sought: &Sought, attestation: &Attestation, meter: &mut Meter) -> Option<u8>
    requires names { HasNames sought.now.expectation.now.ignore sought.now.ignored.now }
    requires answers { HasAnswers sought.now.place sought.now.expectation.now.builders
        attestation.now }
    ensures { (panel : Panel) (expectations : List Expectation) (envelope : Envelope)
        → slice_get expectations sought.now.place ≡ Some sought.now.expectation.now
        → IsAttested panel expectations envelope attestation.now
        → (digests : DigestSet) → HasSubject digests attestation.now
        → IsReached panel sought.now.expectation.now digests envelope meter.old meter.new result }
{
    let Some(provenance) = expected_in(sought, &attestation.statement) else {
        return None;
    };
    level_of_builders(
        sought.expectation.builders.as_slice(),
        &attestation.answers.for_builders(sought.place),
        provenance.builder.as_str(),
        sought.expectation.level,
        meter,
    )
}

/// The provenance in a Statement, if it is as expected.
fn expected_in<'a>(sought: &Sought, statement: &'a Statement) -> Option<&'a Provenance>
    requires { HasNames sought.now.expectation.now.ignore sought.now.ignored.now }
    ensures { MatchOption result
        ((provenance : _) → ¬ SaysExpected sought.now.expectation.now statement.now provenance)
        (λ provenance. SaysExpected sought.now.expectation.now statement.now provenance.now) }
{
    let Some(provenance) = &statement.provenance else {
        return None;
    };
    if is_expected(sought, provenance) {
        Some(provenance)
    } else {
        None
    }
}

/// Whether some subject has the digests. Takes no memory.
pub fn some_agrees(subjects: &[DigestSet], digests: &DigestSet) -> bool
    ensures { IsTrue result ↔ Any (λ subject. Agree subject digests.now) subjects.now }
{
    subjects
        .iter()
        .any(|subject| subject.compare(digests) == Compare::Agree)
}

/// Whether a build is of the expected type and has the expected parameters.
fn is_expected(sought: &Sought, provenance: &Provenance) -> bool
    requires { HasNames sought.now.expectation.now.ignore sought.now.ignored.now }
    ensures { IsTrue result ↔ IsExpected sought.now.expectation.now provenance.now }
{
    provenance.build_type.as_str() == sought.expectation.build_type.as_str()
        && parameters_meet(sought.expectation, sought.ignored, &provenance.parameters)
}
