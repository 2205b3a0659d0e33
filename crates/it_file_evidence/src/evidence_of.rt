//! What stands for one delivered file.
ghost use Rattle.std.specs.Prelude.{◌≡◌, IfOk, List, length, ℕ};
ghost use Rattle.it_prov.specs.Held.{AreHeld};
ghost use Rattle.it_prov.specs.ProvenanceLines.{AreReadFrom};
ghost use Rattle.it_file_evidence.specs.inside.Proven.{IsEvidenceOrNone};

use crate::found::{builder_in, index_found};
use crate::known_lines::KnownLines;
use crate::levels::greatest_level;
use crate::signer::signer_in;
use it_base::text::Text;
use it_digest::compare::DigestSet;
use it_dsse::checks::Checks;
use it_json_report::evidence::FileEvidence;
use it_prov::attestations::Attestations;
use std::alloc::{AllocError, Global};

/// What stands for the file at a path, or `None` where the file has no provenance.
pub(crate) fn evidence_of<C: Checks>(
    alloc: Global,
    path: &str,
    digests: DigestSet,
    lines: &KnownLines<'_>,
    attestations: &Attestations<C>,
) -> Result<Option<FileEvidence>, AllocError>
    requires held { AreHeld (C.panel attestations.now.checks.now)
        attestations.now.expectations.now attestations.now.envelopes.now
        attestations.now.held.items }
    requires places { length lines.now.places.now ≡ length attestations.now.envelopes.now }
    ensures { IfOk result (λ found. (texts : List (List ℕ))
        → AreReadFrom 1 texts attestations.now.envelopes.now lines.now.places.now
        → IsEvidenceOrNone (C.panel attestations.now.checks.now)
        attestations.now.expectations.now lines.now.vouched.now texts
        attestations.now.envelopes.now (path.now, digests) found) }
{
    let Some(place) = attestations.fitting(path) else {
        return Ok(None);
    };
    let Some(index) = index_found(alloc, path, digests, attestations)? else {
        return Ok(None);
    };
    let held = &attestations.held[index];
    let Some(builder) = builder_in(held) else {
        return Ok(None);
    };
    let expectation = &attestations.expectations[place];
    let builders = expectation.builders.as_slice();
    let envelope = &attestations.envelopes[index];
    let Some(level) = greatest_level(builders, builder, envelope, attestations.checks)? else {
        return Ok(None);
    };
    let signer = signer_in(alloc, lines.vouched, builders, builder, envelope)?;
    Ok(Some(FileEvidence {
        path: Text::copy(alloc, path)?,
        digests,
        line: lines.places[index],
        builder: Text::copy(alloc, builder)?,
        level,
        signer,
    }))
}
