//! The envelope that is the provenance of a file (SLSA v1.0, verifying artifacts).
ghost use Rattle.std.specs.Prelude.{◌≡◌, IfOk, MatchOption, option_map};
ghost use Rattle.it_prov.specs.Finding.{IsFound};
ghost use Rattle.it_prov.specs.Held.{AreHeld};
ghost use Rattle.it_file_evidence.specs.inside.Proven.{IsProven, builder_named};

use it_digest::compare::DigestSet;
use it_dsse::checks::Checks;
use it_dsse::meter::Meter;
use it_prov::attestations::{Attestation, Attestations};
use it_prov::fault::ProvError;
use it_prov::find_among;
use std::alloc::{AllocError, Global};

/// The index of the first envelope that is provenance of a file, or `None` where none is.
pub(crate) fn index_found<C: Checks>(
    alloc: Global,
    path: &str,
    digests: DigestSet,
    attestations: &Attestations<C>,
) -> Result<Option<usize>, AllocError>
    requires { AreHeld (C.panel attestations.now.checks.now) attestations.now.expectations.now
        attestations.now.envelopes.now attestations.now.held.items }
    ensures { IfOk result (λ found. MatchOption found
        (¬ IsProven (C.panel attestations.now.checks.now) attestations.now.expectations.now
        attestations.now.envelopes.now (path.now, digests))
        (IsFound (C.panel attestations.now.checks.now) attestations.now.expectations.now path.now
        digests attestations.now.envelopes.now)) }
{
    let mut meter = Meter { asked: 0 };
    match find_among(alloc, path, digests, attestations, &mut meter) {
        Ok(index) => Ok(Some(index)),
        Err(ProvError::NoExpectation(_)) => Ok(None),
        Err(ProvError::NoProvenance(_, _)) => Ok(None),
        Err(ProvError::OutOfMemory) => Err(AllocError),
    }
}

/// The id of the builder that the provenance in an envelope names, where the envelope holds one.
pub(crate) fn builder_in<'a>(held: &'a Option<Attestation>) -> Option<&'a str>
    ensures { option_map (λ id. id.now) result ≡ builder_named held.now }
{
    let Some(attestation) = held else {
        return None;
    };
    let Some(provenance) = &attestation.statement.provenance else {
        return None;
    };
    Some(provenance.builder.as_str())
}
