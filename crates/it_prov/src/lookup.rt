//! Which envelopes have a subject that agrees with the digests of a file.
ghost use Rattle.std.specs.Prelude.{◌≡◌, ◌||◌, ◌↔◌, List, ℕ, Option, Bool, IfOk, IsTrue, OnOk};
ghost use Rattle.std.specs.Prelude.{◌==◌};
ghost use Rattle.std.specs.List.{list_any};
ghost use Rattle.it_prov.specs.declared.attestations.Attestation.{Attestation};
ghost use Rattle.it_digest.specs.Compare.{Agree};
ghost use Rattle.it_digest.specs.declared.compare.DigestSet.{DigestSet};
ghost use Rattle.it_prov.specs.Index.{IsIndex, is_of, names};
ghost use Rattle.it_prov.specs.inside.Indexed.{TellsAgreement, places_where};

use crate::index::{Entry, Index, entries_under};
use it_digest::compare::{Compare, DigestSet};
use std::alloc::{AllocError, Global};

/// The places of the envelopes with a subject that agrees with the digests, in order and each once.
/// Such a subject shares one of the digests, so only the subjects that the index has under one of
/// them are compared.
///
/// # Errors
///
/// `AllocError` where memory was refused.
pub(crate) fn candidates(
    alloc: Global,
    index: &Index,
    digests: &DigestSet,
) -> Result<Vec<usize>, AllocError>
    ensures { IfOk result (λ places.
        (test : DigestSet → Bool) → TellsAgreement digests.now test
        → (held : List (Option Attestation)) → IsIndex held index.now
        → places.items ≡ places_where (names test) 0 held) }
{
    let mut places = Vec::new(alloc);
    push_agreeing(
        &mut places,
        entries_under(&index.by_sha256, &digests.sha256),
        digests,
    )?;
    push_agreeing(
        &mut places,
        entries_under(&index.by_sha384, &digests.sha384),
        digests,
    )?;
    push_agreeing(
        &mut places,
        entries_under(&index.by_sha512, &digests.sha512),
        digests,
    )?;
    places.sort_unstable();
    places.dedup();
    Ok(places)
}

/// Adds the places of the entries whose subjects agree with the digests.
fn push_agreeing(
    places: &mut Vec<usize>,
    entries: &[Entry],
    digests: &DigestSet,
) -> Result<(), AllocError>
    ensures { OnOk result ((test : DigestSet → Bool) → TellsAgreement digests.now test
        → (place : ℕ) → list_any (λ p. p == place) places.new.items
        ≡ (list_any (λ p. p == place) places.old.items
        || list_any (is_of test place) entries.now)) }
{
    for entry in entries {
        if agrees(&entry.subject, digests) {
            places.push(entry.place)?;
        }
    }
    Ok(())
}

fn agrees(subject: &DigestSet, digests: &DigestSet) -> bool
    ensures { IsTrue result ↔ Agree subject.now digests.now }
{
    subject.compare(digests) == Compare::Agree
}
